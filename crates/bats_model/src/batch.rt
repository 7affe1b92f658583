ghost use Rattle.std.specs.Prelude.{◌≡◌, ◌*◌, ◌<◌, ℕ, length, slice_index};

use crate::{Bytes, Nums};
use gf_core::Gf;
use std::marker::Model;

/// A batch: its number, its contributors among the symbols, and its generator, with one row a contributor and
/// one column for each of the M coded packets.
#[derive(Debug, Drop)]
pub struct Batch {
    number: u32,
    columns: u8,
    contributors: Vec<u32>,
    entries: Vec<u8>,
}

impl Model for Batch {
    ghost use Rattle.bats_model.specs.Batch.{BatchData, IsBatch};

    ghost Value = { BatchData };

    ghost view = { λ b. record {
      number = b.number;
      columns = b.columns;
      contributors = b.contributors.items;
      entries = b.entries.items;
    } };

    ghost invariant = { λ b. IsBatch (record {
      number = b.number;
      columns = b.columns;
      contributors = b.contributors.items;
      entries = b.entries.items;
    }) };
}

impl Batch {
    ghost use Rattle.bats_model.specs.Batch.{IsBatch, degree_of, contributor_of, entry_of};

    // The batch of these parts, whose entries stand row after row.
    pub(crate) fn of_parts(
        number: u32,
        columns: u8,
        contributors: Vec<u32>,
        entries: Vec<u8>,
    ) -> Batch
        requires { IsBatch (record {
          number = number;
          columns = columns;
          contributors = contributors.items;
          entries = entries.items;
        }) }
        ensures { result ≡ record {
          number = number;
          columns = columns;
          contributors = contributors.items;
          entries = entries.items;
        } }
    {
        Batch {
            number,
            columns,
            contributors,
            entries,
        }
    }

    /// The batch of `m` packets with these contributors and these entries of its generator. Row k, of contributor
    /// k, is the bytes `k * m` to `k * m + m - 1` of `entries`.
    pub fn new(m: u8, number: u32, contributors: Nums, entries: Bytes) -> Batch
        requires { IsBatch (record {
          number = number;
          columns = m;
          contributors = contributors;
          entries = entries;
        }) }
        ensures { result ≡ record {
          number = number;
          columns = m;
          contributors = contributors;
          entries = entries;
        } }
    {
        Batch::of_parts(number, m, contributors.into_vec(), entries.into_vec())
    }

    /// The number of the batch.
    pub fn number(&self) -> u32
        ensures value { result ≡ self.now.number }
        ensures within { IsBatch self.now }
    {
        self.number
    }

    /// The number of contributors, at most 128.
    pub fn degree(&self) -> u32
        ensures value { result ≡ degree_of self.now }
        ensures within { IsBatch self.now }
    {
        self.contributors.len() as u32
    }

    /// Contributor `k`, the number of a symbol.
    pub fn contributor(&self, k: u32) -> u32
        requires { k < degree_of self.now }
        ensures { result ≡ contributor_of self.now k }
    {
        self.contributors[k as usize]
    }

    /// The generator's entry in row `k` and column `j`.
    pub fn entry(&self, k: u32, j: u32) -> Gf
        requires row { k < degree_of self.now }
        requires column { j < self.now.columns }
        ensures { result ≡ entry_of self.now k j }
    {
        Gf::new(self.entries[k as usize * self.columns as usize + j as usize])
    }

    /// Row `k` of the generator, the entries of contributor `k`: a byte for each column.
    pub fn row(&self, k: u32) -> &[u8]
        requires { k < degree_of self.now }
        ensures width { length result.now ≡ self.now.columns }
        ensures entries { (j : ℕ) → j < self.now.columns → slice_index result.now j ≡ entry_of self.now k j }
    {
        let width = self.columns as usize;
        let start = k as usize * width;
        &self.entries.as_slice()[start..start + width]
    }
}

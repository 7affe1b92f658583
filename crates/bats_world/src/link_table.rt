//! The links as a table, so that looking one up takes one step.
ghost use Rattle.std.specs.Prelude.{ℕ, List, ◌≡◌, ◌<◌, ◌+◌, ◌*◌, All, length, true, false, slice_index_or, slice_set, IfOk};
ghost use Rattle.bats_world.specs.World.{has_link};
ghost use Rattle.bats_world.specs.Standing.{IsTableOf};
ghost use Rattle.bats_world.specs.steps.Places.{AreNodes};

use std::alloc::{AllocError, Global};

// A node for the source, 16 for the relays and one for the sink.
const NODES: usize = 18;

// The number of places of a table.
fn places() -> usize
    ensures { result ≡ 324 }
{
    NODES * NODES
}

// Writes a link into the table.
fn write_link(table: &mut [bool], link: (u32, u32))
    requires nodes { AreNodes link }
    requires size { length table.old ≡ 324 }
    ensures { table.new ≡ slice_set table.old (link.0 * 18 + link.1) true }
{
    table[link.0 as usize * NODES + link.1 as usize] = true;
}

/// The table of these links, with a row for each node that they lead from.
pub(crate) fn link_table(alloc: Global, links: &[(u32, u32)]) -> Result<Vec<bool>, AllocError>
    requires { All AreNodes links.now }
    ensures { IfOk result (λ table. IsTableOf links.now table.items) }
{
    let mut table = vec![in alloc; false; places()]?;
    'links: for link in links {
        write_link(&mut table, *link);
    }
    Ok(table)
}

/// Whether a link leads from one node to another.
pub(crate) fn is_linked(table: &[bool], from: u32, to: u32) -> bool
    requires from { from < 18 }
    requires to { to < 18 }
    requires size { length table.now ≡ 324 }
    ensures value { result ≡ slice_index_or table.now (from * 18 + to) false }
    ensures told { (links : List (ℕ × ℕ)) → IsTableOf links table.now → result ≡ has_link links from to }
{
    table[from as usize * NODES + to as usize]
}

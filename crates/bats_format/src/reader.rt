ghost use Rattle.std.specs.Prelude.{◌≡◌};

use crate::records::{record_size, take_first, take_record};
use bats_io::Source;
use bats_model::{Item, ReadEnd, Session};
use std::alloc::Global;
use std::marker::Model;

/// A reader of a packet file whose first header was read, one record at a time, whatever pieces the input comes in.
#[derive(Debug, Drop)]
pub struct Reader {
    session: Session,
    records: u32,
    offset: u64,
    ended: bool,
    refused: Option<ReadEnd>,
}

impl Model for Reader {
    ghost use Rattle.std.specs.Prelude.{◌≤◌, ◌*◌};
    ghost use Rattle.bats_model.specs.PacketFile.{most_records};
    ghost use Rattle.bats_format.specs.Taking.{most_of_record};
    ghost use Rattle.bats_format.specs.Reader.{ReaderData};

    ghost Value = { ReaderData };

    ghost view = { λ r. record {
      session = r.session;
      records = r.records;
      offset = r.offset;
      ended = r.ended;
      refused = r.refused;
    } };

    ghost invariant = { λ r. (r.records ≤ most_records) × (r.offset ≤ most_of_record * r.records) };
}

impl Reader {
    ghost use Rattle.bats_format.specs.Reader.{Opens, Nexts};

    /// Reads the first header, 32 bytes, of which the reader then stands for the item at 0. It takes no memory. Where the
    /// input begins with another byte than a header, that byte alone is read.
    pub fn open<S: Source>(source: &mut S) -> Result<Reader, ReadEnd>
        ensures { Opens
            (S.state source.old)
            (S.state source.new)
            result }
    {
        match take_first(source) {
            Ok(session) => Ok(Reader {
                session,
                records: 1,
                offset: 32,
                ended: false,
                refused: None,
            }),
            Err(refusal) => Err(refusal),
        }
    }

    /// The session of the first header.
    pub fn session(&self) -> &Session
        ensures { result.now ≡ self.now.session }
    {
        &self.session
    }

    /// The record after those that were read. `Ok(None)` is the end of the input after a whole record. After a refusal, and
    /// after `Ok(None)`, each later call answers the same and reads nothing. Memory is taken once a packet's first byte was
    /// read.
    pub fn next<S: Source>(
        &mut self,
        alloc: Global,
        source: &mut S,
    ) -> Result<Option<Item>, ReadEnd>
        ensures { Nexts
            (S.state source.old)
            (S.state source.new)
            self.old self.new result }
    {
        if let Some(end) = self.refused {
            return Err(end);
        }
        if self.ended {
            return Ok(None);
        }
        match take_record(alloc, source, &self.session, self.records, self.offset) {
            Ok(Some(item)) => {
                self.records += 1;
                self.offset += record_size(&self.session, &item);
                Ok(Some(item))
            }
            Ok(None) => {
                self.ended = true;
                Ok(None)
            }
            Err(end) => {
                self.refused = Some(end);
                Err(end)
            }
        }
    }
}

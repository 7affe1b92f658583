ghost use Rattle.std.specs.Prelude.{◌≡◌, ◌≢◌, ◌⊎◌, ℕ, ◌<◌, ◌≤◌, ◌↔◌, IsTrue, IfOk, IsErrOf};
ghost use Rattle.bats_model.specs.Bytes.{AreBytes};

use std::marker::Model;

/// Packets of a batch, at most.
pub const MAX_BATCH_SIZE: u8 = 32;

/// Bytes of a symbol, at most.
pub const MAX_SYMBOL_SIZE: u16 = 2048;

/// Symbols of a file, at most.
pub const MAX_SYMBOLS: u64 = 4096;

/// Why parameters are no session's. The first in this order is told.
#[derive(Clone, Copy, Debug, PartialEq, Eq)]
pub enum BadSession {
    /// The packets of a batch aren't 1 to 32.
    BatchSize,
    /// The bytes of a symbol aren't 1 to 2,048.
    SymbolSize,
    /// The degree table isn't 0 or 1.
    Table,
    /// The file has this many symbols, more than 4,096.
    TooLong { symbols: u64 },
}

/// What source, relays and sink of one file agree on, within the limits.
#[derive(Clone, Copy, Debug, PartialEq, Eq)]
pub struct Session {
    m: u8,
    t: u16,
    file_length: u64,
    table: u8,
    systematic: bool,
    seed: [u8; 16],
}

impl Model for Session {
    ghost use Rattle.bats_model.specs.Session.{SessionData, IsSession};

    ghost Value = { SessionData };

    ghost view = { λ s. record {
      m = s.m;
      t = s.t;
      file_length = s.file_length;
      table = s.table;
      systematic = s.systematic;
      seed = s.seed;
    } };

    ghost invariant = { λ s. IsSession (record {
      m = s.m;
      t = s.t;
      file_length = s.file_length;
      table = s.table;
      systematic = s.systematic;
      seed = s.seed;
    }) };

    ghost inverse = { λ s. record {
      m = s.m;
      t = s.t;
      file_length = s.file_length;
      table = s.table;
      systematic = s.systematic;
      seed = s.seed;
    } };
}

// The same seed, whose entries are told to be bytes.
fn bytes_of(seed: &[u8; 16]) -> [u8; 16]
    ensures same { result ≡ seed.now }
    ensures bytes { AreBytes seed.now }
{
    let _bytes = seed.as_slice();
    *seed
}

impl Session {
    ghost use Rattle.bats_model.specs.Session.{IsSession, IsPadded, symbols_of, symbol_count};

    /// The session of `m` packets a batch and `t` bytes a symbol for a file of `length` bytes.
    pub fn new(
        m: u8,
        t: u16,
        length: u64,
        table: u8,
        systematic: bool,
        seed: [u8; 16],
    ) -> Result<Session, BadSession>
        ensures ok { IfOk result (λ session. session ≡ record {
          m = m;
          t = t;
          file_length = length;
          table = table;
          systematic = systematic;
          seed = seed;
        }) }
        ensures within { IfOk result IsSession }
        ensures batch_size { IsErrOf result BadSession.BatchSize ↔ ((m ≡ 0) ⊎ (32 < m)) }
        ensures symbol_size { IsErrOf result BadSession.SymbolSize
            ↔ ((1 ≤ m) × (m ≤ 32) × ((t ≡ 0) ⊎ (2048 < t))) }
        ensures table { IsErrOf result BadSession.Table
            ↔ ((1 ≤ m) × (m ≤ 32) × (1 ≤ t) × (t ≤ 2048) × (2 ≤ table)) }
        ensures too_long { (symbols : ℕ) → IsErrOf result (BadSession.TooLong symbols)
            ↔ ((1 ≤ m) × (m ≤ 32) × (1 ≤ t) × (t ≤ 2048) × (table < 2) × (4096 < symbols) × (symbols ≡ symbol_count length t)) }
    {
        if m == 0 || m > MAX_BATCH_SIZE {
            return Err(BadSession::BatchSize);
        }
        if t == 0 || t > MAX_SYMBOL_SIZE {
            return Err(BadSession::SymbolSize);
        }
        if table > 1 {
            return Err(BadSession::Table);
        }
        let symbols = length.div_ceil(u64::from(t));
        if symbols > MAX_SYMBOLS {
            return Err(BadSession::TooLong { symbols });
        }
        Ok(Session {
            m,
            t,
            file_length: length,
            table,
            systematic,
            seed: bytes_of(&seed),
        })
    }

    /// Packets of a batch, 1 to 32.
    pub fn m(&self) -> u8
        ensures value { result ≡ self.now.m }
        ensures within { IsSession self.now }
    {
        self.m
    }

    /// Bytes of a symbol, 1 to 2,048.
    pub fn t(&self) -> u16
        ensures value { result ≡ self.now.t }
        ensures within { IsSession self.now }
    {
        self.t
    }

    /// Bytes of the file.
    pub fn length(&self) -> u64
        ensures value { result ≡ self.now.file_length }
        ensures within { IsSession self.now }
    {
        self.file_length
    }

    /// The number of the degree table, 0 or 1.
    pub fn table(&self) -> u8
        ensures value { result ≡ self.now.table }
        ensures within { IsSession self.now }
    {
        self.table
    }

    /// Whether the first batches carry the symbols as they are.
    pub fn systematic(&self) -> bool
        ensures value { result ≡ self.now.systematic }
    {
        self.systematic
    }

    /// The seed of the session's keys, 16 bytes.
    pub fn seed(&self) -> [u8; 16]
        ensures value { result ≡ self.now.seed }
    {
        self.seed
    }

    /// Symbols of the file, at most 4,096.
    pub fn symbols(&self) -> u32
        ensures value { result ≡ symbols_of self.now }
        ensures within { IsSession self.now }
    {
        self.file_length.div_ceil(u64::from(self.t)) as u32
    }

    /// Whether the last symbol is only in part the file's.
    pub fn padded(&self) -> bool
        ensures { IsTrue result ↔ IsPadded self.now }
    {
        self.file_length % u64::from(self.t) != 0
    }
}

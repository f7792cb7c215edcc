ghost use Rattle.std.specs.Prelude.{◌≡◌, ◌<◌, IfOk};
ghost use Rattle.cert_text.specs.steps.Read.{Reads, after_word, lower_value, read_hex, read_bytes, begins};

use std::alloc::AllocError;

/// What is left to read of a text. Where a call refuses, it stands at the first byte that can't follow.
#[derive(Drop)]
pub struct Cursor<'a> {
    /// The bytes that are left.
    pub rest: &'a [u8],
}

/// Why reading stops.
#[derive(Clone, Copy)]
pub enum Stop {
    /// Want of memory.
    Mem,
    /// The next byte can't stand here.
    Refused,
}

impl From<AllocError> for Stop {
    ghost use Rattle.std.specs.Prelude.{◌≡◌};
    ghost use Rattle.cert_text.specs.declared.cursor.Stop.TheVariants.{Mem};

    ghost from_gives = { λ _ stop. stop ≡ Mem };

    fn from(_: AllocError) -> Self {
        Stop::Mem
    }
}

/// The value of a digit in base 16, with lower case letters.
fn hex_value(byte: u8) -> Option<u8>
    ensures { result ≡ lower_value byte }
{
    match byte {
        b'0'..=b'9' => Some(byte - b'0'),
        b'a'..=b'f' => Some(byte - b'a' + 10),
        _ => None,
    }
}

impl<'a> Cursor<'a> {
    /// Takes a word.
    pub fn word(&mut self, word: &[u8]) -> Result<(), Stop>
        ensures { Reads result (after_word word.now self.old.rest.now) self.new.rest.now }
    {
        for wanted in word {
            match self.rest.split_first() {
                Some((byte, rest)) if *byte == *wanted => self.rest = rest,
                _ => return Err(Stop::Refused),
            }
        }
        Ok(())
    }

    /// Takes a digit in base 16, with lower case letters.
    fn hex(&mut self) -> Result<u8, Stop>
        ensures gives { Reads result (read_hex self.old.rest.now) self.new.rest.now }
        ensures small { IfOk result (λ digit. digit < 16) }
    {
        let Some((byte, rest)) = self.rest.split_first() else {
            return Err(Stop::Refused);
        };
        let Some(digit) = hex_value(*byte) else {
            return Err(Stop::Refused);
        };
        self.rest = rest;
        Ok(digit)
    }

    /// Takes 64 such digits, two a byte.
    pub fn digest(&mut self) -> Result<[u8; 32], Stop>
        ensures { Reads result (read_bytes 32 self.old.rest.now) self.new.rest.now }
    {
        let mut digest = [0; 32];
        for i in 0..32 {
            let high = self.hex()?;
            let low = self.hex()?;
            digest[i] = 16 * high + low;
        }
        Ok(digest)
    }

    /// Whether the next byte is this one.
    pub fn begins(&self, byte: u8) -> bool
        ensures { result ≡ begins byte self.now.rest.now }
    {
        match self.rest.split_first() {
            Some((first, _)) => *first == byte,
            None => false,
        }
    }
}

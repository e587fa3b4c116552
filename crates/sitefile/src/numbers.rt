// Numbers: groups of seven bits, lowest first. The high bit of a byte says that another follows.
ghost use Rattle.std.specs.Prelude.{◌≡◌, ◌+◌, ◌^◌, ◌<◌, ◌≤◌, [], ◌∷◌, length, MatchResult};
ghost use Rattle.sitefile.specs.Faults.{missing_byte};
ghost use Rattle.sitefile.specs.Readers.{ahead, size};
ghost use Rattle.sitefile.specs.Numbers.{BeginsBy, FaultBy, ReadsNumber};

use crate::fault::{Cause, Fault};
use crate::reader::Reader;

// A byte from here on says that another follows.
const CONTINUED: u8 = 0x80;

// The greatest fifth byte: the highest four of 32 bits.
const LAST_GROUP: u8 = 0x0f;

// The groups that may follow a number's first.
const MORE: u32 = 4;

impl<'a> Reader<'a> {
    // A reader at the front of a file.
    pub fn new(file: &'a [u8]) -> Reader<'a>
        ensures ahead { ahead result ≡ file.now }
        ensures at { result.at ≡ 0 }
    {
        Reader { left: file, at: 0 }
    }

    // A reader of what follows a file's first byte.
    pub(crate) fn after_kind(rest: &'a [u8]) -> Reader<'a>
        requires { 1 + length rest.now < 2 ^ 64 }
        ensures ahead { ahead result ≡ rest.now }
        ensures at { result.at ≡ 1 }
    {
        Reader { left: rest, at: 1 }
    }

    fn byte(&mut self) -> Result<u8, Fault>
        ensures size { size self.new ≡ size self.old }
        ensures read { MatchResult result (λ b. ahead self.old ≡ b ∷ ahead self.new) (λ f. (f ≡ missing_byte (size self.old)) × (ahead self.old ≡ [])) }
    {
        let [byte, rest @ ..] = self.left else {
            return Err(Cause::MissingByte.at(self.at));
        };
        self.left = rest;
        self.at += 1;
        Ok(*byte)
    }

    // The groups of a number that begins at `first`, of which at most `more` follow the next one.
    fn groups(&mut self, first: usize, more: u32) -> Result<u32, Fault>
        requires { more ≤ 4 }
        ensures size { size self.new ≡ size self.old }
        ensures read { MatchResult result (λ n. BeginsBy more (ahead self.old) n (ahead self.new)) (λ f. FaultBy more first (size self.old) (ahead self.old) f) }
    {
        let malformed = Cause::MalformedNumber.at(first);
        let byte = self.byte()?;
        if more == 0 {
            if byte > LAST_GROUP {
                return Err(malformed);
            }
            return Ok(byte as u32);
        }
        if byte < CONTINUED {
            return Ok(byte as u32);
        }
        let higher = self.groups(first, more - 1)?;
        if higher == 0 {
            return Err(malformed);
        }
        Ok((byte - CONTINUED) as u32 + 0x80 * higher)
    }

    // The number at the reader's position. A fault leaves the reader where it stands.
    pub fn number(&mut self) -> Result<u32, Fault>
        ensures { ReadsNumber self.old self.new result }
    {
        let mut walk = *self;
        let n = walk.groups(self.at, MORE)?;
        *self = walk;
        Ok(n)
    }
}

// With nothing ahead: what an `ArrayVec` has in the entries that are not in use.
impl Default for Reader<'_> {
    ghost is_default = { λ reader. ahead reader ≡ [] };

    fn default() -> Self {
        Reader::new(&[])
    }
}

//! Bits that wait for a sink, by value: what the codes of a row are put into one after another.
//! Whole words of them go to the sink.
ghost use Rattle.std.specs.Prelude.{◌≡◌, ◌+◌, ◌<◌, ◌≤◌, ◌^◌, ◌++◌, [], length, OnOk, OnErr, IfOk};
ghost use Rattle.fax_bits.specs.Bits.{code_bits};
ghost use Rattle.fax_bits.specs.views.Sink.{Appends, AppendsAllBut};
ghost use Rattle.fax_bits.specs.views.Source.{IsTaken, KeepsEnd};

use crate::{BitSink, BitSource, Memory};
use std::marker::Model;

/// How many bits a word has that goes to the sink.
const WORD: u32 = 32;

/// At most 32 bits that wait for a sink: a code, or what is put after the bits of a sink. Contracts
/// see the list of them.
// They are a value, as a row is read from bits by value: the sink would load and store its own at
// each code. What is put after them is such bits too, so that what the codes of a run and of a mode
// are stands once, for the sink's own calls as well. They stand after the sink's own pending bits,
// so that neither has an invariant of the other.
#[derive(Drop)]
pub struct PendingBits {
    /// The bits as a number: the highest was put first.
    number: u64,
    /// How many they are.
    count: u32,
}

impl Model for PendingBits {
    ghost use Rattle.std.specs.Prelude.{Bool, List};
    ghost use Rattle.fax_bits.specs.Bits.{code_bits};
    ghost use Rattle.fax_bits.specs.code.Sink.{AreWaiting};

    ghost Value = { List Bool };

    ghost view = { λ p. code_bits p.count p.number };

    ghost invariant = { λ p. AreWaiting p.count p.number };
}

impl PendingBits {
    /// No bits.
    #[inline(always)]
    pub fn none() -> Self
        ensures { result ≡ [] }
    {
        PendingBits {
            number: 0,
            count: 0,
        }
    }

    /// The lowest `len` bits of `bits`, the highest first.
    #[inline(always)]
    pub(crate) fn of(bits: u32, len: u32) -> Self
        requires short { len ≤ 32 }
        requires fits { bits < 2 ^ len }
        ensures { result ≡ code_bits len bits }
    {
        PendingBits {
            number: u64::from(bits),
            count: len,
        }
    }

    /// These and the next ones.
    #[inline(always)]
    pub(crate) fn then(self, next: Self) -> Self
        requires { length self + length next ≤ 32 }
        ensures { result ≡ self ++ next }
    {
        PendingBits {
            number: (self.number << next.count) | next.number,
            count: self.count + next.count,
        }
    }

    /// Puts the first word of these and the next ones into the sink, where they are so many, and
    /// answers the others. After an `Err` the sink is as it was.
    #[inline(always)]
    pub(crate) fn put(self, sink: &mut BitSink, next: Self) -> Result<Self, Memory>
        ensures ok { IfOk result (λ remaining. AppendsAllBut sink.old (self ++ next) remaining sink.new) }
        ensures err { OnErr result (sink.new ≡ sink.old) }
    {
        let number = (self.number << next.count) | next.number;
        let count = self.count + next.count;
        if count < WORD {
            return Ok(PendingBits { number, count });
        }
        let remaining = count - WORD;
        sink.put_word((number >> remaining) as u32)?;
        Ok(PendingBits {
            number: number & ((1 << remaining) - 1),
            count: remaining,
        })
    }

    /// Skips these bits in a source, where they stand next, and returns whether they do. Else the
    /// source stays.
    #[inline(always)]
    pub(crate) fn take(self, source: &mut BitSource) -> bool
        ensures taken { IsTaken self source.old.remaining result source.new.remaining }
        ensures same_end { KeepsEnd source.old source.new }
    {
        source.take(self.number as u32, self.count)
    }

    /// Puts all of these bits.
    ///
    /// # Errors
    ///
    /// Where a growth was refused. The sink is then as it was.
    pub fn put_all(self, sink: &mut BitSink) -> Result<(), Memory>
        ensures ok { OnOk result (Appends sink.old self sink.new) }
        ensures err { OnErr result (sink.new ≡ sink.old) }
    {
        sink.put(self.number as u32, self.count)
    }
}

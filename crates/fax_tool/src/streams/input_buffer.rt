//! Bytes of a source that are held, in room that is used again.
ghost use Rattle.std.specs.Prelude.{◌≡◌, ◌<◌, ◌≤◌, [], length, drop, IfOk, IfErr, OnOk};
ghost use Rattle.fax_tool.specs.declared.refusal.Refusal.TheVariants.{Memory};
ghost use Rattle.fax_tool.specs.Streams.{input_after};
ghost use Rattle.fax_tool.specs.code.InputBuffer.{HoldsMore};
ghost use Rattle.fax_tool.specs.code.Outcome.{HasReadReason};
ghost use Rattle.fax_tool.specs.code.Transfers.{counted};

use crate::refusal::Refusal;
use crate::streams::Source;
use crate::streams::transfer::{MOST_INPUT, RetryCount, zero_bytes};
use std::alloc::Global;
use std::marker::Model;

/// Bytes of a source that are held, and how many were taken in all, at most 268,435,456.
#[derive(Drop)]
pub(crate) struct InputBuffer {
    /// The bytes stand at its front.
    room: Vec<u8>,
    len: usize,
    taken: usize,
}

impl Model for InputBuffer {
    ghost use Rattle.std.specs.Prelude.{take};
    ghost use Rattle.fax_tool.specs.code.InputBuffer.{HeldBytes, IsHeld};

    ghost Value = { HeldBytes };

    ghost view = { λ h. record { bytes = take h.len h.room.items; taken = h.taken } };

    ghost invariant = { λ h. IsHeld h.room.items h.len h.taken };
}

impl InputBuffer {
    /// No bytes, and room for so many.
    pub(crate) fn new(alloc: Global, room: usize) -> Result<Self, Refusal>
        requires { 0 < room }
        ensures none { IfOk result (λ held. held ≡ record { bytes = []; taken = 0 }) }
        ensures memory { IfErr result (λ refusal. refusal ≡ Memory) }
    {
        Ok(InputBuffer {
            room: zero_bytes(alloc, room)?,
            len: 0,
            taken: 0,
        })
    }

    /// The bytes.
    pub(crate) fn bytes(&self) -> &[u8]
        ensures { result.now ≡ self.now.bytes }
    {
        &self.room[..self.len]
    }

    /// Drops so many bytes from the front.
    pub(crate) fn drop_front(&mut self, count: usize)
        requires { count ≤ length self.old.bytes }
        ensures { self.new ≡ record { bytes = drop count self.old.bytes; taken = self.old.taken } }
    {
        // Where nothing is dropped nothing is moved.
        if count == 0 {
            return;
        }
        self.room.copy_within(count..self.len, 0);
        self.len -= count;
    }

    /// Takes bytes until the room is full or none is left, and returns whether it saw that none
    /// is. Room that is full already is made twice as much before, but never of more bytes than
    /// show that there are too many.
    ///
    /// # Errors
    ///
    /// `Memory` where a growth was refused; `Read` where a read failed, 1,024 were interrupted, or
    /// the source has more than 268,435,456 bytes.
    pub(crate) fn fill<R: Source>(
        &mut self,
        input: &mut R,
        interruptions: &mut RetryCount,
    ) -> Result<bool, Refusal>
        requires counts { R.counts input.old ≡ counted interruptions.old }
        requires taken { R.taken input.old ≡ self.old.taken }
        ensures more { IfOk result (HoldsMore (R.remaining input.old) (R.remaining input.new) self.old
            self.new) }
        ensures counts { OnOk result (R.counts input.new ≡ counted interruptions.new) }
        ensures taken { OnOk result (R.taken input.new ≡ self.new.taken) }
        ensures reason { IfErr result (λ refusal. HasReadReason refusal
            (input_after (R.remaining input.old) (R.taken input.new) (R.counts input.new))) }
    {
        interruptions.lemma_few();
        let len = self.len;
        if len == self.room.len() {
            let most = (2 * len).min(MOST_INPUT + 1);
            self.room
                .reserve_exact(most - len)
                .map_err(|_| Refusal::Memory)?;
            self.room.resize(most, 0).map_err(|_| Refusal::Memory)?;
        }
        while self.len < self.room.len() {
            interruptions.lemma_few();
            match input.take(&mut self.room[self.len..]) {
                Ok(0) => return Ok(true),
                Ok(count) => {
                    if count > MOST_INPUT - self.taken {
                        return Err(Refusal::Read);
                    }
                    self.len += count;
                    self.taken += count;
                }
                Err(fault) => {
                    if !interruptions.allow(fault) {
                        return Err(Refusal::Read);
                    }
                }
            }
        }
        Ok(false)
    }
}

//! One trip of a key code, from bytes to numbers to bytes, as lines of text.
#![tactic(auto)]

ghost use Rattle.std.specs.Prelude.{◌≡◌, true, length, IfOk, nat_le};
ghost use Rattle.layout.specs.KeyCodes.{key_code_bytes};
ghost use Rattle.exr_value.specs.KeyCodes.{numbers_of};

use crate::shown::{Hex, Numbers, Refused};
use exr_sink::block::Block;
use exr_sink::sink::Sink;
use exr_source::held::HeldBytes;
use exr_value::key_code::KeyCode;
use std::alloc::{AllocError, Global};

mod shown;

/// A line for each step, and whether the key code came through.
// The text is there in both cases, so `carried` stands beside it.
#[derive(Drop)]
pub struct Trip {
    pub text: String,
    pub carried: bool,
}

/// Takes a key code from a source of these bytes, writes its numbers to a
/// sink, and compares what the sink took with what the source gave. A refused
/// one is told by its number and the bytes given; nothing is written then. A
/// key code comes through exactly if 28 bytes are there.
pub fn carry(heap: Global, bytes: &[u8]) -> Result<Trip, AllocError>
    ensures { IfOk result (λ t. t.carried ≡ nat_le 28 (length bytes.now)) }
{
    let mut text = String::new(heap);
    writeln!(text, "bytes to come: {}", bytes.len())?;
    let mut source = HeldBytes::new(bytes);
    let carried = match KeyCode::read_from(&mut source) {
        Err(fault) => {
            writeln!(text, "{}nothing is written", Refused(fault))?;
            false
        }
        Ok(key_code) => {
            write!(text, "read a key code\n{}", Numbers(key_code))?;
            written(&mut text, key_code, &bytes[..KeyCode::byte_size()])?
        }
    };
    Ok(Trip { text, carried })
}

/// Writes the numbers to a block, and tells whether it took the bytes that the
/// source gave.
fn written(text: &mut String, key_code: KeyCode, given: &[u8]) -> Result<bool, AllocError>
    ensures { IfOk result (λ same. given.now ≡ key_code_bytes (numbers_of key_code) → same ≡ true) }
{
    writeln!(text, "given by the source:{}", Hex(given))?;
    writeln!(text, "write its seven numbers")?;
    let mut block = Block::new();
    if let Err(full) = key_code.write(&mut block) {
        writeln!(text, "refused: 20, the sink stopped with {}", full.number)?;
        return Ok(false);
    }
    let taken = block.taken();
    writeln!(text, "taken by the sink:  {}", Hex(taken))?;
    writeln!(text, "bytes taken: {}", taken.len())?;
    let same = taken == given;
    let which = if same { "the same" } else { "other" };
    writeln!(text, "verdict: {which} bytes")?;
    Ok(same)
}

//! Lists of values whose images all have the same number of bytes: their frames are written some at a time.

ghost use Rattle.std.specs.Prelude.{◌≡◌, ◌+◌, ◌*◌, ◌<◌, ◌≤◌, ◌++◌, length, Ok, IfOk, IfErr, OnErr};
ghost use Rattle.pgv_buf.specs.Tokens.{be4, bytes};
ghost use Rattle.pgv_value.specs.declared.error.CodecError.TheVariants.{Memory};
ghost use Rattle.pgv_codec.specs.Appending.{Extends};
ghost use Rattle.pgv_codec.specs.AtOnce.{AreFrames, WritesFirst};
ghost use Rattle.pgv_codec.specs.Encoding.{Encoding, frame};

use crate::buffer::PgArgumentBuffer;
use pgv_value::CodecError;

/// A value whose image has `N` bytes.
pub(crate) trait Fixed<const N: usize>: Sized {
    /// What the value is written as.
    ghost encoding: { Self → Encoding };

    /// The bytes of its image.
    fn image(&self) -> [u8; N]
        ensures { (frame (encoding self.now)).answer ≡ Ok (bytes (be4 N ++ result)) };
}

/// Puts the frame of an image, the number of its bytes and these, in place of as many bytes.
#[inline(always)]
fn put_frame<const N: usize>(image: [u8; N], frame: &mut [u8])
    requires few { N ≤ 16 }
    requires room { length frame.old ≡ 4 + N }
    ensures { frame.new ≡ be4 N ++ image.entry }
{
    let length = (N as u32).to_be_bytes();
    frame[..4].copy_from_slice(&length);
    frame[4..].copy_from_slice(&image);
}

/// Puts the frames of the values, of `F` bytes each, in place of as many bytes.
#[inline(always)]
fn put_frames<T: Fixed<N>, const N: usize, const F: usize>(values: &[T], frames: &mut [u8])
    requires few { N ≤ 16 }
    requires wide { F ≡ 4 + N }
    requires room { length frames.old ≡ length values.now * F }
    ensures { AreFrames T.encoding values.now frames.new }
{
    for place in 0..values.len() {
        let first = place * F;
        let mut frame = [0; F];
        put_frame(values[place].image(), &mut frame);
        frames[first..first + F].copy_from_slice(&frame);
    }
}

/// Appends the frames of the values, `G` at a time, but for the last ones, which are fewer, and says how many were
/// written. Room for all is asked for first. Out of memory (C1) may have appended something.
///
/// An image has `N` bytes, its frame `F`, and `G` frames have `M`: up to 128 bytes, as LLVM copies so many in place.
/// More are copied by a call, which waits for the stores before it.
#[inline(always)]
pub(crate) fn write_fixed<
    T: Fixed<N>,
    const N: usize,
    const F: usize,
    const G: usize,
    const M: usize,
>(values: &[T], out: &mut PgArgumentBuffer) -> Result<usize, CodecError>
    requires few { N ≤ 16 }
    requires wide { F ≡ 4 + N }
    requires group { (0 < G) × (G ≤ 8) }
    requires room { M ≡ G * F }
    ensures ok { IfOk result (λ n. WritesFirst T.encoding values.now n out.old out.new) }
    ensures err { IfErr result (λ e. e ≡ Memory) }
    ensures appended { OnErr result (Extends out.old out.new) }
{
    out.reserve(values.len().saturating_mul(F))?;
    let mut written = 0;
    while values.len() - written >= G {
        let (_before, others) = values.split_at(written);
        let (group, _after) = others.split_at(G);
        let mut frames = [0; M];
        put_frames::<T, N, F>(group, &mut frames);
        out.extend_from_slice(&frames)?;
        written += G;
    }
    Ok(written)
}

// What is printed: whole texts, and the lines that they are made of, into any sink.
ghost use Rattle.std.specs.Prelude.{ℕ, List, [], ◌∷◌, ◌++◌, codes};
ghost use Rattle.std.specs.List.{flat_map};
ghost use Rattle.netfile.specs.Sinks.{Puts};
ghost use Rattle.netfile.specs.Printouts.{line, Wrote};

use crate::FileFault;
use crate::sink::{Measure, Sink, Writer};
use itoa::{Buffer, Integer};

// What can be printed.
pub(crate) trait Text {
    // Its bytes.
    ghost text: { Self → List ℕ };

    fn put_into<S: Sink>(&self, sink: &mut S) -> Result<(), FileFault>
        ensures { Puts S.room S.takes sink.old (text self.now) result sink.new };
}

// Writes a text to the front of a buffer, and tells how long it is; nothing is written where it has no room.
pub(crate) fn write<T: Text>(text: &T, out: &mut [u8]) -> Result<usize, FileFault>
    ensures { Wrote (T.text text.now) result out.old out.new }
{
    text.put_into(&mut Measure::of(out))?;
    let mut writer = Writer::new(out);
    text.put_into(&mut writer)?;
    Ok(writer.written())
}

// One space and the number in decimal.
fn put_field<S: Sink, N: Integer>(sink: &mut S, n: N) -> Result<(), FileFault>
    ensures { Puts S.room S.takes sink.old (32 ∷ N.text n) result sink.new }
{
    sink.put(b" ")?;
    sink.put(Buffer::new().format(n).as_bytes())
}

// Each number, after a space.
fn put_fields<S: Sink, N: Integer>(sink: &mut S, numbers: &[N]) -> Result<(), FileFault>
    ensures { Puts S.room S.takes sink.old (flat_map (λ n. 32 ∷ N.text n) numbers.now) result sink.new }
{
    for n in numbers {
        put_field(sink, *n)?;
    }
    Ok(())
}

// A line: its mark, its numbers, and byte 10.
pub(crate) fn put_line<S: Sink, N: Integer>(
    sink: &mut S,
    mark: &[u8],
    numbers: &[N],
) -> Result<(), FileFault>
    ensures { Puts S.room S.takes sink.old (mark.now ++ (flat_map (λ n. 32 ∷ N.text n) numbers.now ++ 10 ∷ [])) result sink.new }
{
    sink.put(mark)?;
    put_fields(sink, numbers)?;
    sink.put(b"\n")
}

// The line of a certificate: the multiplier, and the coefficients.
pub(crate) fn put_certificate<S: Sink>(
    sink: &mut S,
    multiplier: u32,
    coefficients: &[u32],
) -> Result<(), FileFault>
    ensures { Puts S.room S.takes sink.old (line (codes "A:") (multiplier ∷ coefficients.now)) result sink.new }
{
    sink.put(b"A:")?;
    put_field(sink, multiplier)?;
    put_fields(sink, coefficients)?;
    sink.put(b"\n")
}

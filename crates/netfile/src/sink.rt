// Where text goes: a text is gone over twice, first measured and then written, so that nothing is written where not all of it has room.
ghost use Rattle.std.specs.Prelude.{◌≡◌, ℕ, ◌+◌, ◌-◌, ◌≤◌, List, length, take, refl};
ghost use Rattle.std.proofs.Common.{◌∙◌, append_assoc, length-append, arith, rules};
ghost use Rattle.std.proofs.lemmas.List.{drop-drop};
ghost use Rattle.netfile.specs.Sinks.{Puts, PieceByPiece, Written};

use crate::FileFault;

// Takes text piece by piece, or finds no room for a piece.
// `fmt::Write` and `io::Write` say nothing of a piece that is refused, and a run has to tell why.
pub(crate) trait Sink {
    // How many bytes more it takes.
    ghost room: { Self → ℕ };

    // A sink, a text that went into it, and the sink after it.
    ghost takes: { Self → List ℕ → Self → Type 0 };

    fn put(&mut self, bytes: &[u8]) -> Result<(), FileFault>
        ensures { Puts room takes self.old bytes.now result self.new };

    // It is the same to put a text at once or piece by piece.
    ghost piece_by_piece: { PieceByPiece room takes };
}

// Measures text against the room of a buffer.
#[derive(Drop)]
pub(crate) struct Measure {
    room: usize,
}

impl Measure {
    pub(crate) fn of(out: &[u8]) -> Measure
        ensures { result.room ≡ length out.now }
    {
        Measure { room: out.len() }
    }
}

impl Sink for Measure {
    ghost room = { λ s. s.room };

    ghost takes = { λ s text e. e.room + length text ≡ s.room };

    fn put(&mut self, bytes: &[u8]) -> Result<(), FileFault> {
        self.room = self
            .room
            .checked_sub(bytes.len())
            .ok_or(FileFault::BufferTooShort)?;
        Ok(())
    }

    ghost piece_by_piece = { record {
      nothing = λ s. omega arith;
      both = λ s m e t u p q. omega (arith, length-append t u);
      spent = λ s e text p. p;
    } };
}

// Writes text into a buffer, from its front on.
#[derive(Drop)]
pub(crate) struct Writer<'a> {
    out: &'a mut [u8],
    at: usize,
    ghost within: { at ≤ length out.now },
}

impl<'a> Writer<'a> {
    pub(crate) fn new(out: &'a mut [u8]) -> Writer<'a>
        ensures at { result.at ≡ 0 }
        ensures out { result.out.now ≡ out.old }
        ensures same { result.out.ghost_name ≡ out.entry.ghost_name }
    {
        Writer { out, at: 0 }
    }

    // How many bytes are written.
    pub(crate) fn written(&self) -> usize
        ensures { result ≡ self.now.at }
    {
        self.at
    }
}

impl Sink for Writer<'_> {
    ghost room = { λ s. length s.out.now - s.at };

    ghost takes = { λ s text e. Written s.at s.out.now text e.at e.out.now × (e.out.ghost_name ≡ s.out.ghost_name) };

    fn put(&mut self, bytes: &[u8]) -> Result<(), FileFault> {
        if bytes.len() > self.out.len() - self.at {
            return Err(FileFault::BufferTooShort);
        }
        let end = self.at + bytes.len();
        self.out[self.at..end].copy_from_slice(bytes);
        self.at = end;
        Ok(())
    }

    ghost piece_by_piece = { record {
      nothing = λ s. (record { end_is = omega arith; long = refl; front = Prim.search rules; behind = refl }, refl);
      both = λ s m e t u p q. (
        record {
          end_is = omega (arith, length-append t u);
          long = q.0.long ∙ p.0.long;
          front = Prim.cc (append_assoc (take s.at s.out.now) t u);
          behind = Prim.cc (drop-drop (length u) m.at m.out.now, drop-drop (length u) m.at s.out.now);
        },
        q.1 ∙ p.1,
      );
      spent = λ s e text p. omega (arith, p.0.end_is, p.0.long, e.within);
    } };
}

//! The sink that the words choose.
ghost use Rattle.std.specs.Prelude.{◌≤◌, ◌<◌, length, IfOk, IsErrOf};
ghost use Rattle.std.specs.Io.{WritesAtMost};
ghost use Rattle.std.specs.Io.KnownBytes.{WriteAppends};
ghost use Rattle.uo_base.specs.Faults.{Rose};
ghost use Rattle.utreexo.specs.Sinks.{of_kind, DoesWrite};

use std::io::Write;
use std::rt::Files;
use uo_base::{FileSink, QuietSink, Sink, SinkFault};

/// A sink of any kind that the program stores to. Its call is that of the sink that it holds.
#[derive(Drop)]
pub enum AnySink<'r, R: Files> {
    File(FileSink<'r, R>),
    Quiet(QuietSink),
}

impl<'r, R: Files> Sink for AnySink<'r, R> {
    ghost held = { of_kind ⟦<FileSink<'r, R> as Sink>⟧.held ⟦<QuietSink as Sink>⟧.held };

    ghost faults = { of_kind ⟦<FileSink<'r, R> as Sink>⟧.faults ⟦<QuietSink as Sink>⟧.faults };

    fn write(&mut self, piece: &[u8]) -> Result<usize, SinkFault>
        ensures bound { WritesAtMost result piece.now }
        ensures bytes { WriteAppends (⟦<AnySink<'r, R> as Sink>⟧.held self.old) (⟦<AnySink<'r, R> as Sink>⟧.held self.new) result piece.now }
        ensures some { IfOk result (λ n. 0 < length piece.now → 0 < n) }
        ensures later { ⟦<AnySink<'r, R> as Sink>⟧.faults self.old ≤ ⟦<AnySink<'r, R> as Sink>⟧.faults self.new }
        ensures cause { IsErrOf result SinkFault.Failed →
            Rose (⟦<AnySink<'r, R> as Sink>⟧.faults self.old) (⟦<AnySink<'r, R> as Sink>⟧.faults self.new) }
        ensures does { DoesWrite ⟦<R::File as Write>⟧.contents self.old self.new result piece.now }
    {
        match self {
            AnySink::File(sink) => sink.write(piece),
            AnySink::Quiet(sink) => sink.write(piece),
        }
    }
}

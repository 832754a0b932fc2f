//! What was read at work: the reply is offered first, and only if it is accepted does anything change.
ghost use Rattle.std.specs.Prelude.{◌≡◌, ◌≤◌, length, OnErr};
ghost use Rattle.queue.specs.Waiting.{waiting, places};
ghost use Rattle.state.specs.Step.{strokes_after};
ghost use Rattle.terminal.specs.Session.{seen, SameLoans};
ghost use Rattle.terminal.specs.Work.{Worked, Holds};

use crate::reply::Reply;
use crate::session::Session;
use keyboard::stroke::Stroke;
use line::Line;
use line::shortage::Shortage;
use plane::Plane;
use queue::Queue;
use state::action::{Action, Control, KeyAction};
use state::reading::Reading;

// What becomes of the waiting strokes.
fn keep(strokes: &mut Queue<'_, Stroke>, action: Action)
    requires { Holds action (length (waiting strokes.old)) (places strokes.old) }
    ensures waiting { waiting strokes.new ≡ strokes_after (waiting strokes.old) action }
    ensures places { places strokes.new ≡ places strokes.old }
{
    match action {
        Action::Control(Control::Unlock) => strokes.clear(),
        Action::Key(KeyAction::Hold(stroke)) => strokes.push(stroke).unwrap(),
        _ => {}
    }
}

impl<P: Plane, L: Line> Session<'_, '_, '_, '_, '_, '_, P, L> {
    /// Does what was read, or nothing where the reply finds no room.
    pub(crate) fn work(&mut self, reading: Reading) -> Result<(), Shortage>
        requires few { length (waiting self.old.strokes.now) ≤ 16 }
        requires place { Holds reading.action (length (waiting self.old.strokes.now)) (places self.old.strokes.now) }
        ensures worked { Worked (seen P.picture L.carried self.old) reading result (seen P.picture L.carried self.new) }
        ensures lent { SameLoans self.old self.new }
        ensures refused { OnErr result (self.new ≡ self.old) }
    {
        let reply = Reply::of(self.terminal, self.strokes, reading.action);
        self.line.offer(reply.as_slice())?;
        self.terminal.parser = reading.parser;
        self.terminal.act(self.plane, reading.action);
        keep(self.strokes, reading.action);
        Ok(())
    }
}

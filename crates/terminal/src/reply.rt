//! A reply in the making: one offer, of at most 64 bytes.
ghost use Rattle.std.specs.Prelude.{◌≡◌, ◌+◌, ◌*◌, ◌≤◌, List, [], ◌++◌, length};
ghost use Rattle.queue.specs.Waiting.{waiting};
ghost use Rattle.keyboard.specs.Codes.{codes_of};
ghost use Rattle.state.specs.Reply.{cut as cut_off, coordinates, ending, position_report, pointer_report, all_codes, reply_of};
ghost use Rattle.terminal.specs.Reply.{content};

use arrayvec::ArrayVec;
use keyboard::stroke::Stroke;
use queue::Queue;
use state::action::{Action, Control, GinAction, KeyAction};
use state::setup::Terminator;
use state::terminal::Terminal;

// The terminal is handed to the parts that read it: as a field it would give Reply a lifetime, and be no shorter.
#[derive(Drop)]
pub(crate) struct Reply {
    bytes: ArrayVec<u8, 64>,
}

// A coordinate brought to 0 .. 1,023.
fn cut(coordinate: i16) -> u16
    ensures { result ≡ cut_off coordinate }
{
    coordinate.clamp(0, 1023) as u16
}

impl Reply {
    fn new() -> Reply
        ensures { content result ≡ [] }
    {
        Reply {
            bytes: ArrayVec::new(),
        }
    }

    pub(crate) fn as_slice(&self) -> &[u8]
        ensures { result.now ≡ content self.now }
    {
        self.bytes.as_slice()
    }

    fn append(&mut self, bytes: &[u8])
        requires { length (content self.old) + length bytes.now ≤ 64 }
        ensures content { content self.new ≡ content self.old ++ bytes.now }
        ensures length { length (content self.new) ≡ length (content self.old) + length bytes.now }
    {
        self.bytes.try_extend_from_slice(bytes).unwrap();
    }
}

impl Reply {
    // High X, low X, high Y, low Y in graph form.
    fn coordinates(&mut self, x: u16, y: u16)
        requires room { length (content self.old) ≤ 58 }
        requires few { (x ≤ 1023) × (y ≤ 1023) }
        ensures content { content self.new ≡ content self.old ++ coordinates x y }
        ensures length { length (content self.new) ≡ length (content self.old) + 4 }
    {
        let high_x = 32 + (x / 32) as u8;
        let low_x = 64 + (x % 32) as u8;
        let high_y = 32 + (y / 32) as u8;
        let low_y = 96 + (y % 32) as u8;
        self.append(&[high_x, low_x, high_y, low_y]);
    }

    fn end(&mut self, terminator: Terminator)
        requires { length (content self.old) ≤ 62 }
        ensures content { content self.new ≡ content self.old ++ ending terminator }
        ensures length { length (content self.new) ≤ length (content self.old) + 2 }
    {
        match terminator {
            Terminator::Nothing => self.append(&[]),
            Terminator::Cr => self.append(&[13]),
            Terminator::CrEot => self.append(&[13, 4]),
        }
    }

    fn stroke(&mut self, terminal: &Terminal, stroke: Stroke)
        requires { length (content self.old) ≤ 61 }
        ensures content { content self.new ≡ content self.old ++ codes_of stroke terminal.now.emulation terminal.now.modes.keys }
        ensures length { length (content self.new) ≤ length (content self.old) + 3 }
    {
        let codes = stroke.codes(terminal.emulation, terminal.modes.keys);
        self.append(codes.as_slice());
    }

    // The status, 33 and 4 since no graph mode is on, and the position.
    fn position(&mut self, terminal: &Terminal)
        requires { length (content self.old) ≤ 57 }
        ensures content { content self.new ≡ content self.old ++ position_report terminal.now }
        ensures length { length (content self.new) ≤ length (content self.old) + 7 }
    {
        let at = terminal.window.position;
        self.append(&[37]);
        self.coordinates(cut(at.x), cut(at.y));
        self.end(terminal.setup.terminator);
    }

    fn pointer(&mut self, terminal: &Terminal)
        requires { length (content self.old) ≤ 58 }
        ensures content { content self.new ≡ content self.old ++ pointer_report terminal.now }
        ensures length { length (content self.new) ≤ length (content self.old) + 6 }
    {
        let at = terminal.pointer;
        self.coordinates(at.x.min(1023), at.y.min(1023));
        self.end(terminal.setup.terminator);
    }

    // The bytes of the strokes that wait, the oldest first.
    fn strokes(&mut self, terminal: &Terminal, strokes: &Queue<'_, Stroke>)
        requires empty { content self.old ≡ [] }
        requires few { length (waiting strokes.now) ≤ 16 }
        ensures content { content self.new ≡ all_codes terminal.now (waiting strokes.now) }
        ensures length { length (content self.new) ≤ 3 * length (waiting strokes.now) }
    {
        for stroke in strokes.iter() {
            self.stroke(terminal, *stroke);
        }
    }
}

impl Reply {
    fn control(terminal: &Terminal, strokes: &Queue<'_, Stroke>, control: Control) -> Reply
        requires { length (waiting strokes.now) ≤ 16 }
        ensures content { content result ≡ reply_of terminal.now (waiting strokes.now) (Action.Control control) }
        ensures length { length (content result) ≤ 64 }
    {
        let mut reply = Reply::new();
        match control {
            Control::Lock | Control::Reset => {}
            Control::Unlock => reply.strokes(terminal, strokes),
            Control::Acknowledge => reply.append(&[6]),
            Control::Report => reply.position(terminal),
        }
        reply
    }

    fn graphics_input(terminal: &Terminal, action: GinAction) -> Reply
        ensures content { (ks : List Stroke) → content result ≡ reply_of terminal.now ks (Action.Gin action) }
        ensures length { length (content result) ≤ 64 }
    {
        let mut reply = Reply::new();
        match action {
            GinAction::Enter | GinAction::Begin | GinAction::Lose | GinAction::Leave => {}
            GinAction::Report => reply.pointer(terminal),
            GinAction::Send(stroke) => {
                reply.stroke(terminal, stroke);
                reply.pointer(terminal);
            }
        }
        reply
    }

    fn key(terminal: &Terminal, key: KeyAction) -> Reply
        ensures content { (ks : List Stroke) → content result ≡ reply_of terminal.now ks (Action.Key key) }
        ensures length { length (content result) ≤ 64 }
    {
        let mut reply = Reply::new();
        match key {
            KeyAction::Hold(_) => {}
            KeyAction::Send(stroke) => reply.stroke(terminal, stroke),
        }
        reply
    }

    /// What an action replies, as the terminal stands before it.
    pub(crate) fn of(terminal: &Terminal, strokes: &Queue<'_, Stroke>, action: Action) -> Reply
        requires { length (waiting strokes.now) ≤ 16 }
        ensures content { content result ≡ reply_of terminal.now (waiting strokes.now) action }
        ensures length { length (content result) ≤ 64 }
    {
        match action {
            Action::Nothing | Action::Draw(_) | Action::Aim(_) => Reply::new(),
            Action::Control(control) => Reply::control(terminal, strokes, control),
            Action::Gin(gin) => Reply::graphics_input(terminal, gin),
            Action::Key(key) => Reply::key(terminal, key),
        }
    }
}

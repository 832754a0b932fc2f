//! An action at work on the terminal and its plane.
ghost use Rattle.std.specs.Prelude.{◌≡◌};
ghost use Rattle.state.specs.Step.{state_after, picture_after};

use crate::action::{Action, Control, Drawing, GinAction};
use crate::terminal::{Gin, Terminal};
use plane::Plane;
use raster::brush::Brush;
use raster::clear::clear;

impl Terminal {
    fn control<P: Plane>(&mut self, plane: &mut P, control: Control)
        ensures state { self.new ≡ state_after self.old (Action.Control control) }
        ensures picture { P.picture plane.new ≡ picture_after self.old (Action.Control control) (P.picture plane.old) }
    {
        match control {
            Control::Lock => self.locked = true,
            Control::Unlock => self.locked = false,
            Control::Acknowledge | Control::Report => {}
            Control::Reset => {
                self.renew();
                clear(plane, self.window.area);
            }
        }
    }

    // Draws, or moves: the position is then where the drawing went.
    fn draw<P: Plane>(&mut self, plane: &mut P, drawing: Drawing)
        ensures state { self.new ≡ state_after self.old (Action.Draw drawing) }
        ensures picture { P.picture plane.new ≡ picture_after self.old (Action.Draw drawing) (P.picture plane.old) }
    {
        match drawing {
            Drawing::Move { to } => self.window.position = to,
            Drawing::Line { to } => {
                let window = self.window;
                let brush = Brush {
                    region: window.area,
                    operation: window.pen.drawing,
                };
                brush.line(plane, window.position, to, self.modes.last_point);
                self.window.position = to;
            }
        }
    }

    fn graphics_input(&mut self, action: GinAction)
        ensures { self.new ≡ state_after self.old (Action.Gin action) }
    {
        self.gin = match action {
            GinAction::Enter | GinAction::Lose => Gin::On,
            GinAction::Begin => Gin::AfterEscape,
            GinAction::Leave | GinAction::Report | GinAction::Send(_) => Gin::Off,
        };
    }

    /// Does what was called for, but for the waiting strokes and the reply.
    pub fn act<P: Plane>(&mut self, plane: &mut P, action: Action)
        ensures state { self.new ≡ state_after self.old action }
        ensures picture { P.picture plane.new ≡ picture_after self.old action (P.picture plane.old) }
    {
        match action {
            Action::Nothing | Action::Key(_) => {}
            Action::Control(control) => self.control(plane, control),
            Action::Draw(drawing) => self.draw(plane, drawing),
            Action::Gin(gin) => self.graphics_input(gin),
            Action::Aim(at) => self.pointer = at,
        }
    }
}

//! The table of the regions, and the one that is selected.
ghost use Rattle.std.specs.Prelude.{◌≡◌};
ghost use Rattle.regions.specs.Regions.{new as all_whole, window_of, chosen, moved_to, drawing_by, texting_by, selecting, defining};
ghost use Rattle.raster.specs.Clear.{cleared};

use crate::area::Area;
use crate::size::Size;
use crate::slot::Slot;
use crate::window::Window;
use plane::Plane;
use raster::operation::Operation;
use raster::region::Point;

#[derive(Clone, Copy)]
pub struct Regions {
    pub windows: [Window; 8],
    pub selected: Slot,
}

impl Regions {
    /// Each is the whole plane, and region 0 is selected.
    pub fn new(plane: Size) -> Regions
        ensures { result ≡ all_whole plane }
    {
        Regions {
            windows: [Window::new(Area::whole(plane)); 8],
            selected: Slot::first(),
        }
    }

    pub fn window(&self, slot: Slot) -> Window
        ensures { result ≡ window_of self.now slot }
    {
        self.windows[slot.number as usize]
    }

    /// The region that drawing keeps to.
    pub fn current(&self) -> Window
        ensures { result ≡ chosen self.now }
    {
        self.window(self.selected)
    }

    /// Moves the position of the selected region, which drops a held wrap.
    pub fn move_to(&mut self, to: Point)
        ensures { self.new ≡ moved_to to self.old }
    {
        let window = self.current();
        self.windows[self.selected.number as usize] = Window {
            position: to,
            held: false,
            ..window
        };
    }

    // One statement each, so that a common function would be no shorter.

    /// Sets the operation that joins lines in the selected region.
    pub fn draw_by(&mut self, operation: Operation)
        ensures { self.new ≡ drawing_by operation self.old }
    {
        self.windows[self.selected.number as usize].pen.drawing = operation;
    }

    /// Sets the operation that joins text in the selected region.
    pub fn text_by(&mut self, operation: Operation)
        ensures { self.new ≡ texting_by operation self.old }
    {
        self.windows[self.selected.number as usize].pen.text = operation;
    }

    pub fn select(&mut self, slot: Slot)
        ensures { self.new ≡ selecting slot self.old }
    {
        self.selected = slot;
    }

    /// Defines a region anew; region 0 and the selected one stay.
    pub fn define(&mut self, slot: Slot, area: Area)
        ensures { self.new ≡ defining slot area self.old }
    {
        let at = slot.number;
        if at != 0 && at != self.selected.number {
            self.windows[at as usize] = Window::new(area);
        }
    }

    /// Clears the selected region.
    pub fn erase<P: Plane>(&mut self, plane: &mut P)
        ensures same { self.new ≡ self.old }
        ensures picture { P.picture plane.new ≡ cleared (chosen self.old).area.region (P.picture plane.old) }
    {
        self.windows[self.selected.number as usize].erase(plane);
    }
}

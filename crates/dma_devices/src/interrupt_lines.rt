//! The interrupt lines whose levels a script gives.

ghost use Rattle.std.specs.Prelude.{◌≡◌};

/// The levels of the lines 4, 5 and 6.
#[derive(Clone, Copy)]
pub struct InterruptLines {
    pub line4: bool,
    pub line5: bool,
    pub line6: bool,
}

impl InterruptLines {
    ghost use Rattle.dma_devices.specs.DeviceSet as law;

    /// The lines at reset, which are down.
    pub fn down() -> InterruptLines
        ensures { result ≡ law.lines_down }
    {
        InterruptLines {
            line4: false,
            line5: false,
            line6: false,
        }
    }

    /// Gives a line a level.
    pub fn set(&mut self, line: u8, level: bool)
        ensures lines { self.new ≡ law.with_level self.old line level }
    {
        match line {
            4 => self.line4 = level,
            5 => self.line5 = level,
            6 => self.line6 = level,
            _ => {}
        }
    }
}

// Hold and release.
ghost use Rattle.std.specs.Prelude.{◌≡◌};
ghost use Rattle.clock_core.specs.Core.{hold_core, release_core};
ghost use Rattle.clock_core.specs.View.{meant};

use crate::clock::{ClockCore, Hold};
use refusals::Refusal;
use register_map::map::RegisterMap;

impl<M: RegisterMap> ClockCore<M> {
    pub fn is_held(&self) -> bool
        ensures { result ≡ (meant M.RegisterMap self.now).held }
    {
        matches!(self.hold, Hold::Held { .. })
    }

    // A boundary was crossed while held, and is not yet applied.
    pub fn boundary_waits(&self) -> bool
        ensures { result ≡ (meant M.RegisterMap self.now).waits }
    {
        match self.hold {
            Hold::Released => false,
            Hold::Held { boundary_waits } => boundary_waits,
        }
    }

    pub fn hold(&mut self) -> Result<(), Refusal>
        ensures { (result, meant M.RegisterMap self.new) ≡ hold_core (meant M.RegisterMap self.old) }
    {
        match self.hold {
            Hold::Held { .. } => Err(Refusal::AlreadyHeld),
            Hold::Released => {
                self.hold = Hold::Held {
                    boundary_waits: false,
                };
                Ok(())
            }
        }
    }

    // Applies the waiting boundary; the running second goes on.
    pub fn release(&mut self) -> Result<(), Refusal>
        ensures { (result, meant M.RegisterMap self.new) ≡ release_core M.RegisterMap.chart (meant M.RegisterMap self.old) }
    {
        let Hold::Held { boundary_waits } = self.hold else {
            return Err(Refusal::NotHeld);
        };
        if boundary_waits {
            self.map.advance();
        }
        self.hold = Hold::Released;
        Ok(())
    }
}

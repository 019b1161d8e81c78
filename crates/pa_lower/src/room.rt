ghost use Rattle.std.specs.Prelude.{◌≡◌, IfOk};
ghost use Rattle.pa_lower.specs.Temporaries as spec;
ghost use Rattle.pa_lower.specs.Expressions.{stored_room};

use crate::code::next;
use pa_lir::Temp;
use pa_num::Memory;

/// The temporaries that the code of an expression may use: `to` gets its value, those from `free` on are free, and so is `spare`
/// below them, where there is one. `same` has the place of the innermost store around the expression.
#[derive(Clone, Copy, Debug, PartialEq, Eq)]
pub(crate) struct Room {
    pub(crate) to: Temp,
    pub(crate) free: Temp,
    pub(crate) spare: Option<Temp>,
    pub(crate) same: Option<Temp>,
}

impl Room {
    /// That of a whole expression in a statement.
    pub(crate) fn whole() -> Room
        ensures { result ≡ spec.whole_room }
    {
        Room {
            to: 0,
            free: 1,
            spare: None,
            same: None,
        }
    }

    /// That of a part which is evaluated while the value of the one before waits.
    pub(crate) fn next(self) -> Result<Room, Memory>
        ensures { IfOk result (λ room. room ≡ spec.next_room self) }
    {
        Ok(Room {
            to: self.free,
            free: next(self.free)?,
            spare: None,
            same: self.same,
        })
    }

    /// Where a store keeps its place.
    pub(crate) fn place_temp(self) -> Temp
        ensures { result ≡ spec.place_temp self }
    {
        self.spare.unwrap_or(self.free)
    }

    /// The first free temporary after that.
    pub(crate) fn free_after_place(self) -> Result<Temp, Memory>
        ensures { IfOk result (λ free. free ≡ spec.free_after_place self) }
    {
        match self.spare {
            Some(_) => Ok(self.free),
            None => next(self.free),
        }
    }

    /// That of the place that is stored at, which the store's own value isn't at yet.
    pub(crate) fn place(self) -> Result<Room, Memory>
        ensures { IfOk result (λ room. room ≡ spec.place_room self) }
    {
        Ok(Room {
            to: self.place_temp(),
            free: self.free_after_place()?,
            spare: Some(self.to),
            same: self.same,
        })
    }

    /// That of the value that is stored, where it or the one before (`old`) is given.
    pub(crate) fn stored(self, old: bool) -> Result<Room, Memory>
        ensures { IfOk result (λ room. room ≡ stored_room old self) }
    {
        let free = self.free_after_place()?;
        let same = Some(self.place_temp());
        if old {
            return Ok(Room {
                to: free,
                free: next(free)?,
                spare: None,
                same,
            });
        }
        Ok(Room {
            to: self.to,
            free,
            spare: None,
            same,
        })
    }
}

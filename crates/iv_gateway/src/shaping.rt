//! Administrators are told what makes the shape of what is shared, as long as that has room.
ghost use Rattle.std.specs.Prelude.{◌≡◌, List, OnOk};
ghost use Rattle.iv_command.specs.Views.{act_of};
ghost use Rattle.iv_records.specs.Journal.{Entry};
ghost use Rattle.iv_gate.specs.Gate.{Gate, has_shape_room, informs, shape_text};
ghost use Rattle.iv_gateway.specs.Views.{IsAlive};

use crate::gateway::Gateway;
use iv_command::Act;
use iv_message::laws::told_texts_are_lines;
use iv_notices::inform_all;
use iv_records::is_shape;
use std::alloc::AllocError;

/// The most bytes of the shape's text, beyond which nothing more makes the shape.
const MOST_SHAPE: usize = 16_777_216;

impl Gateway {
    /// Whether the shape has room for what an act makes of it.
    pub(crate) fn has_shape_room(&self, act: &Act) -> bool
        ensures { (g : Gate) → IsAlive g self.now → result ≡ has_shape_room g (act_of act.now) }
    {
        !(is_shape(act) && self.shape.len() > MOST_SHAPE)
    }

    /// Has administrators told of entries, by the text of what they make of the shape. If they make nothing nobody is looked at.
    pub(crate) fn inform(&mut self, made: &[u8]) -> Result<(), AllocError>
        ensures { OnOk result ((g : Gate) (es : List Entry) → IsAlive g self.old → made.now ≡ shape_text es → IsAlive (informs g es) self.new) }
    {
        told_texts_are_lines();
        if made.is_empty() {
            return Ok(());
        }
        inform_all(&mut self.clients, made)?;
        Ok(())
    }
}

// How many bytes are plain, so that they are printed by one copy and the state is not looked at for each.
ghost use Rattle.std.specs.Prelude.{◌≡◌};
ghost use Rattle.printer.specs.Stretches.{is_settled, text_stretch, data_stretch, is_plain_byte};

use crate::Parts;
use codes::IAC;
use negotiation::End;

impl Parts {
    // The reader is between commands, and data has nothing to hold: without RCTE, or under a hold.
    pub fn is_settled(self) -> bool
        ensures { result ≡ is_settled self.sides self.phase self.held }
    {
        reader::is_between(self.phase) && (self.held || !negotiation::rcte_in_force(self.sides))
    }

    // Of a macro's text.
    #[tactic(auto, unfolding(crate::specs::Stretches::text_stretch))]
    pub fn text_stretch(self, bytes: &[u8]) -> usize
        ensures { result ≡ text_stretch self.sides self.phase self.held bytes.now }
    {
        if self.is_settled() {
            reader::text_front(bytes)
        } else {
            0
        }
    }

    // Of bytes that arrive.
    #[tactic(auto, unfolding(crate::specs::Stretches::data_stretch))]
    pub fn data_stretch(self, marks: &[u16; 256], bytes: &[u8]) -> usize
        ensures { result ≡ data_stretch self.sides self.phase self.held marks.now bytes.now }
    {
        if !self.is_settled() {
            0
        } else if negotiation::macros_in_force(End::Printer, self.sides) {
            received_macros::unmarked_front(marks, bytes)
        } else {
            reader::text_front(bytes)
        }
    }

    // A byte that arrives, by itself.
    pub fn is_plain(self, marks: &[u16; 256], b: u8) -> bool
        ensures { result ≡ is_plain_byte self.sides self.phase self.held marks.now b }
    {
        b != IAC
            && self.is_settled()
            && (!negotiation::macros_in_force(End::Printer, self.sides)
                || received_macros::is_unmarked(marks, b))
    }
}

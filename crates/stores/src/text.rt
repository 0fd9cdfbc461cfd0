// Clauses in text.
ghost use Rattle.std.specs.Prelude.{◌≡◌, length};
ghost use Rattle.stores.specs.Texts.{spaced, text_script};
ghost use Rattle.stores.specs.TextLegible.{text_legible};

use crate::spelling::Spelling;
use crate::store::{Store, StoreBatch};
use numerals::{Page, number_length};
use sinks::clause::is_literal;

// In bytes a clause is a line, and blank bytes are 0.
#[derive(Drop)]
pub struct Text;

pub type TextSink = Store<Text>;

pub type TextBatch = StoreBatch<Text>;

impl Spelling for Text {
    type Element = u8;

    ghost script = { text_script };

    ghost legible = { text_legible };

    fn length(clause: &[i32]) -> usize {
        // Beside the literals there are h, a space, 0 and LF.
        clause
            .iter()
            .map(|literal| literal_length(*literal))
            .fold(4, usize::saturating_add)
    }

    fn price(clause: &[i32]) -> Option<usize> {
        if clause.is_empty() {
            return None;
        }
        // The sum is that of `length`, as far as there are literals.
        clause.iter().try_fold(4, |length: usize, literal| {
            if is_literal(*literal) {
                Some(length.saturating_add(literal_length(*literal)))
            } else {
                None
            }
        })
    }

    // Number by number, as a line of a book is written, but for what stands before and after the numbers.
    fn write(bytes: &mut [u8], clause: &[i32]) {
        let mut page = Page::new(bytes);
        page.write_byte(b'h');
        for literal in clause {
            page.write_byte(b' ');
            page.write_number(*literal);
        }
        page.write_bytes(b" 0\n");
    }

    fn wipe(bytes: &mut [u8]) {
        bytes.fill(0);
    }
}

// How many bytes a literal takes, with the space before it.
fn literal_length(literal: i32) -> usize
    ensures { result ≡ length (spaced literal) }
{
    1 + number_length(literal)
}

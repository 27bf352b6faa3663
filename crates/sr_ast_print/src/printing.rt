ghost use Rattle.std.specs.Prelude.{◌≡◌, ◌∷◌, [], List, ℕ, Option, OnOk};
ghost use Rattle.sr_ast.specs.Pages.{Piece, put_all, word, listed, more_listed, in_row, led};

use crate::page::Page;
use sr_base::NoMemory;

/// What is printed on a page.
pub trait Printed: Drop {
    ghost pieces: { Self → List Piece };

    /// Prints the value behind what stands on the page.
    fn print(&self, page: &mut Page) -> Result<(), NoMemory>
        ensures ok { OnOk result (page.new ≡ put_all page.old (pieces self.now)) };
}

/// Prints words, and then a part.
pub fn print_behind<T: Printed>(words: &str, part: &T, page: &mut Page) -> Result<(), NoMemory>
    ensures ok { OnOk result (page.new ≡ put_all page.old (word words.now ∷ T.pieces part.now)) }
{
    page.word(words)?;
    part.print(page)?;
    Ok(())
}

/// Prints one or more, with commas between them.
#[tactic(auto, using(crate::proofs::Prints::steps))]
pub fn print_list<T: Printed>(items: &[T], page: &mut Page) -> Result<(), NoMemory>
    ensures ok { OnOk result (page.new ≡ put_all page.old (listed T.pieces items.now)) }
{
    let Some((first, after)) = items.split_first() else {
        return Ok(());
    };
    first.print(page)?;
    let mut rest = after;
    'items: while let Some((item, after)) = rest.split_first() {
        page.comma()?;
        item.print(page)?;
        rest = after;
    }
    Ok(())
}

/// Prints one after the other.
#[tactic(auto, using(crate::proofs::Prints::steps))]
pub fn print_row<T: Printed>(items: &[T], page: &mut Page) -> Result<(), NoMemory>
    ensures ok { OnOk result (page.new ≡ put_all page.old (in_row T.pieces items.now)) }
{
    let mut rest = items;
    'items: while let Some((item, after)) = rest.split_first() {
        item.print(page)?;
        rest = after;
    }
    Ok(())
}

/// Prints a part behind these words, where it is there.
pub fn print_led<T: Printed>(words: &str, part: &Option<T>, page: &mut Page) -> Result<(), NoMemory>
    ensures ok { OnOk result (page.new ≡ put_all page.old (led words.now T.pieces part.now)) }
{
    match part {
        None => Ok(()),
        Some(part) => {
            page.word(words)?;
            part.print(page)?;
            Ok(())
        }
    }
}

// Words of a table, written on a page.
ghost use Rattle.output.specs.Page.{Writes};
ghost use Rattle.printed.specs.Shown.{words_of, word_of};

use output::page::Page;

// The word of a number, and nothing where the table has fewer.
pub(crate) fn word(page: &mut Page, table: &[&[u8]], number: usize)
    ensures { Writes page.old (word_of number (words_of table.now)) page.new }
{
    if let Some(word) = table.get(number) {
        page.text(word);
    }
}

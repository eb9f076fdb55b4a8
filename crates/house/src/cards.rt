// The size card of a book.
use crate::kinds::Case;
use crate::printing;
use std::io;

// The answer, the number of sizes, and so many rows of the card; or, where none are wanted, how much of the slice was written.
pub(crate) fn card(rt: &impl Print, case: Case<'_>, card: &mut [u32]) -> io::Result<()> {
    let packed = sizes::calls::dv_size_card(case.press, case.first, card);
    printing::answer_and_count(rt, packed)?;
    let rows = case.line.number(5).min(card.len());
    if rows == 0 {
        printing::written(rt, card)?;
        println!(rt)
    } else {
        print!(rt; ";")?;
        printing::numbers(rt, &card[..rows])
    }
}

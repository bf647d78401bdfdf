// Translated strings, no more than there are locales: the last group of check 17.
#![tactic(auto, unfolding(format::specs::Verdicts::check, crate::specs::Locales::locale_check))]

ghost use Rattle.std.specs.Prelude.{◌≡◌};
ghost use Rattle.locales.specs.Locales.{locale_check, locales_check};

use format::{IndexRecord, Refusal, Section, Verdict};

// An index record: where its strings are translated, they are at most `most`.
fn record_check(e: IndexRecord, most: u32) -> Verdict
    ensures { result ≡ locale_check most e }
{
    if e.ty == 9 && most < e.count {
        return Err(Refusal {
            number: 17,
            place: e.tag,
        });
    }
    Ok(())
}

// The same for each index record in turn.
pub fn check(s: &[u8], header: Section, most: u32) -> Verdict
    ensures { result ≡ locales_check s.now header most }
{
    for i in 0..header.nindex {
        let e = header.record(s, header.nindex, i);
        record_check(e, most)?;
    }
    Ok(())
}

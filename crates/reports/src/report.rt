// What a program writes to standard output.
ghost use Rattle.std.specs.Prelude.{◌≡◌};
ghost use Rattle.cases.specs.Tally.{tally_of};

use cases::tally::Tally;

pub fn text(rt: &impl Print, bytes: &[u8])
    ensures { bytes.now ≡ bytes.now }
{
    let _ = rt.write_all(bytes);
}

// The counts of a file, or of all, for the caller to go on with.
pub fn counts(rt: &impl Print, name: &[u8], tally: Tally) -> Tally
    ensures { result ≡ tally }
{
    let Tally { cases, differences } = tally;
    text(rt, name);
    let _ = println!(rt; ": {cases} cases, {differences} differences");
    tally
}

// What a file that is missing counts.
pub fn missing(rt: &impl Print, name: &[u8]) -> Tally
    ensures { result ≡ tally_of 0 1 }
{
    text(rt, name);
    let _ = println!(rt; ": missing");
    Tally::MISSING
}

// Names of properties and defines.
ghost use Rattle.std.specs.Prelude.{◌≡◌};
ghost use Rattle.text.specs.Name.{is_name};

use lexer::bytes::{Class, is_name_length, run_end};

pub fn is_name(text: &[u8]) -> bool
    ensures { result ≡ is_name text.now }
{
    is_name_length(text.len()) & (run_end(text, 0, Class::Name) == text.len())
}

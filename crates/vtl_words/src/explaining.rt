//! Whether command words ask for an explanation.
ghost use Rattle.std.specs.Prelude.{◌≡◌};
ghost use Rattle.vtl_words.specs.Explaining.{asks_to_explain};
ghost use Rattle.vtl_words.specs.Orders.{texts_of};

/// Returns whether the words of a command line ask for an explanation of what is refused, that is, whether one of them
/// is `--explain` and none before it is `--`. The first word, the program's name, is not looked at. Words that are
/// refused may ask for an explanation, too.
pub fn asks_to_explain(words: &[String]) -> bool
    ensures { result ≡ asks_to_explain (texts_of words.now) }
{
    for place in 1..words.len() {
        let word = words[place].as_str();
        if word == "--explain" {
            return true;
        }
        if word == "--" {
            return false;
        }
    }
    false
}

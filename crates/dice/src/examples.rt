ghost use Rattle.std.specs.Prelude.{◌≡◌, length};
ghost use Rattle.dice.specs.Examples.{examples, AllReadSo};

// How many worked examples are known, each of which the reading is proved to read as it says.
pub fn worked_examples() -> usize
    ensures number { result ≡ length examples }
    ensures read { AllReadSo }
{
    2
}

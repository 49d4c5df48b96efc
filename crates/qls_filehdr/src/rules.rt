//! The words of the damage rules.
ghost use Rattle.std.specs.Prelude.{◌≡◌};
ghost use Rattle.qls_filehdr.specs.Limits.{rule_word};

use crate::Rule;

/// The word of a rule, as damage lines print it.
pub fn rule_text(rule: Rule) -> &'static str
    ensures exact { result.now ≡ rule_word rule }
{
    match rule {
        Rule::Id => "id",
        Rule::Pool => "pool",
        Rule::Short => "short",
        Rule::Magic => "magic",
        Rule::Version => "version",
        Rule::Flags => "flags",
        Rule::Partition => "partition",
        Rule::Kib => "kib",
        Rule::Place => "place",
        Rule::Counter => "counter",
        Rule::Kind => "kind",
        Rule::Name => "name",
        Rule::Checksum => "checksum",
        Rule::Zeros => "zeros",
        Rule::Size => "size",
        Rule::Number => "number",
        Rule::Epoch => "epoch",
        Rule::Home => "home",
        Rule::First => "first",
        Rule::Rid => "rid",
        Rule::Order => "order",
        Rule::End => "end",
    }
}

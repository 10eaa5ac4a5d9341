//! The rules by number and name.

ghost use Rattle.std.specs.Prelude.{◌≡◌};
ghost use Rattle.asm_lang_valid.specs.RuleNames.{rule_number, rule_name};

use crate::rule::Rule;

impl Rule {
    /// The number of the rule, from 8 to 24: those below belong to texts that say no module.
    pub fn number(self) -> u8
        ensures { result ≡ rule_number self }
    {
        match self {
            Rule::NameTaken => 8,
            Rule::ForbiddenName => 9,
            Rule::UnknownName => 10,
            Rule::WrongKind => 11,
            Rule::LiteralRange => 12,
            Rule::OutsideInteger => 13,
            Rule::Operand => 14,
            Rule::CallShape => 15,
            Rule::BareByteIndex => 16,
            Rule::ViewShift => 17,
            Rule::TableSize => 18,
            Rule::TableMask => 19,
            Rule::ReturnKind => 20,
            Rule::Label => 21,
            Rule::SwitchCases => 22,
            Rule::ChainLong => 23,
            Rule::PastLimit => 24,
        }
    }

    /// The number and the name of the rule, as they are printed.
    pub fn name(self) -> &'static str
        ensures { result.now ≡ rule_name self }
    {
        match self {
            Rule::NameTaken => "A8 NameTaken",
            Rule::ForbiddenName => "A9 ForbiddenName",
            Rule::UnknownName => "A10 UnknownName",
            Rule::WrongKind => "A11 WrongKind",
            Rule::LiteralRange => "A12 LiteralRange",
            Rule::OutsideInteger => "A13 OutsideInteger",
            Rule::Operand => "A14 Operand",
            Rule::CallShape => "A15 CallShape",
            Rule::BareByteIndex => "A16 BareByteIndex",
            Rule::ViewShift => "A17 ViewShift",
            Rule::TableSize => "A18 TableSize",
            Rule::TableMask => "A19 TableMask",
            Rule::ReturnKind => "A20 ReturnKind",
            Rule::Label => "A21 Label",
            Rule::SwitchCases => "A22 SwitchCases",
            Rule::ChainLong => "A23 ChainLong",
            Rule::PastLimit => "A24 Limit",
        }
    }
}

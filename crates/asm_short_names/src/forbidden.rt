//! Which numbers have names that no short form gives.

ghost use Rattle.std.specs.Prelude.{◌≡◌};
ghost use Rattle.asm_lang_valid.specs.Scope.{is_in};
ghost use Rattle.asm_short_lang.specs.Sequence as sequence;
ghost use Rattle.asm_short_lang.specs.Sequence.{numbered};

/// The numbers of these names.
const FORBIDDEN: [u64; 41] = [
    35_630_528, // break
    750_138, // case
    48_012_861, // catch
    50_819_656, // class
    51_659_337, // const
    13_542_199_411_386, // continue
    17_240_182_476_487, // debugger
    269_439_774_857, // default
    4_211_585_658, // delete
    260, // do
    1_319_482, // else
    1_327_810, // enum
    5_605_184_009, // export
    358_796_246_664, // extends
    98_312_762, // false
    411_307_876_494, // finally
    24_903, // for
    27_148_373_455_171, // function
    571, // if
    9_715_601_929, // import
    579, // in
    163_295_746_507_125_051, // instanceof
    48_841, // let
    57_036, // new
    3_715_201, // null
    19_246_133_763, // return
    321_674_951, // super
    20_618_976_829, // switch
    5_234_632, // this
    335_053_132, // throw
    5_276_346, // true
    82_446, // try
    21_728_047_419, // typeof
    89_543, // var
    5_787_577, // void
    385_347_706, // while
    6_025_853, // with
    419_147_897, // yield
    316_465_050_567_304, // arguments
    1_359_297, // eval
    15_107_710_758_968_042, // __proto__
];

/// Whether the name of a number is one that no short form gives: a reserved word, `arguments`, `eval` or `__proto__`.
#[tactic(auto, using(crate::proofs::Words::forbidden_is))]
pub(crate) fn is_forbidden(number: u64) -> bool
    ensures { result ≡ is_in (numbered number) sequence.forbidden }
{
    FORBIDDEN.contains(&number)
}

//! Laws of the effects of program lines. Each law is the contract of a function that only calls the laws on which it
//! rests.

ghost use Rattle.h41_rows.specs.RowLaws.{AlphaIsDetermined, AlwaysIsDetermined};
ghost use Rattle.h41_rows.specs.RowLaws.{BringingIsDetermined, ExchangeIsDetermined};
ghost use Rattle.h41_rows.specs.RowLaws.{MovingIsDetermined, OneIsDetermined, StoringIsDetermined};
ghost use Rattle.h41_rows.specs.RowLaws.{TakingIsDetermined, TestIsDetermined, TwoIsDetermined};
ghost use Rattle.h41_rows.specs.RowLaws.{ValuesAreDetermined};

use h41_decimal::laws::{
    nearest_is_determined, nearest_root_is_determined, parts_are_determined,
    quotients_are_determined, register_is_determined, steps_are_determined, units_are_injective,
};
use h41_numbers::laws::numbers_are_determined;

/// States that the value that a program line computes is determined: it is one register content or one error.
pub fn values_are_determined()
    ensures { ValuesAreDetermined }
{
    nearest_is_determined();
    nearest_root_is_determined();
    parts_are_determined();
    numbers_are_determined();
    units_are_injective();
    quotients_are_determined();
    steps_are_determined();
    register_is_determined();
}

/// States that the results of this crate's functions that compute or test a value are determined, whatever registers
/// they read.
pub fn results_are_determined()
    ensures one { OneIsDetermined }
    ensures two { TwoIsDetermined }
    ensures always { AlwaysIsDetermined }
    ensures test { TestIsDetermined }
{
    nearest_is_determined();
    nearest_root_is_determined();
    parts_are_determined();
    numbers_are_determined();
    units_are_injective();
    quotients_are_determined();
    steps_are_determined();
    register_is_determined();
}

/// States that the changes of memory by this crate's functions are determined, whatever registers they read and write.
pub fn changes_are_determined()
    ensures taking { TakingIsDetermined }
    ensures moving { MovingIsDetermined }
    ensures bringing { BringingIsDetermined }
    ensures exchange { ExchangeIsDetermined }
    ensures storing { StoringIsDetermined }
    ensures alpha { AlphaIsDetermined }
{}

#![tactic(auto)]

ghost use Rattle.worked.specs.Rows.{RowsHold};
ghost use Rattle.worked.specs.Smallest.{MaySettleSo};

use scale::Scale;

// Every row of the worked table is what the definitions of the calls give.
pub fn rows_hold()
    ensures { RowsHold }
{}

// Over any scale, the steps of those rows, with the smallest number first, are steps that a settle may make.
pub fn smallest_first_settles<S: Scale>()
    ensures { MaySettleSo S.values }
{}

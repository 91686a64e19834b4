//! What the definitions mean in numbers. Nothing here is to be run: each clause is a theorem.

ghost use Rattle.jos_alu.specs.Laws.{ShiftsUp, ShiftsDown, ShiftsSigned, RotatesBack, DividesUnsigned, DividesSigned};
ghost use Rattle.jos_alu.specs.Laws.{ComparesNumbers, OverflowsSigned};

/// SHL by n places is a product by 2^n, SHR the quotient, and SAR the quotient of a signed number, rounded down.
pub fn shifts_are_products()
    ensures up { ShiftsUp }
    ensures down { ShiftsDown }
    ensures signed { ShiftsSigned }
{}

/// ROL by n places undoes ROR by n places.
pub fn rotations_go_back()
    ensures { RotatesBack }
{}

/// The quotient times the divisor and the remainder are the dividend, unsigned and signed. The remainder is smaller
/// than the divisor, and has the sign of the dividend.
pub fn quotients_give_back_the_dividend()
    ensures unsigned { DividesUnsigned }
    ensures signed { DividesSigned }
{}

/// After CMP the conditions compare the two numbers, unsigned and signed.
pub fn conditions_compare()
    ensures { ComparesNumbers }
{}

/// OF is set where a signed sum or difference does not fit.
pub fn overflow_is_signed()
    ensures { OverflowsSigned }
{}

//! What arithmetic, the adjustments, shifts, products and quotients mean for numbers.
ghost use Rattle.execute_arith.specs.ArithmeticLaws.{AaaAdds, AadJoins, AadUndoesAam, AamParts, AasSubtracts, CmpTells, ComparisonTells, DaaAdds, DasSubtracts, NotInverts, SignsExtend, SumsStandInAl};
ghost use Rattle.execute_arith.specs.ShiftLaws.{RotatesThroughCarryTurnRound, RotatesTurnRound, SarDivides, ShlMultiplies, ShrDivides};
ghost use Rattle.execute_arith.specs.ProductLaws.{DivDivides, IdivDivides, ImulMultiplies, MulMultiplies};

use bus::Bus;

/// Checks the definition of the flags of a difference: after a comparison, CF says whether the first number is below
/// the second as an unsigned one, ZF whether they are equal, and SF differs from OF exactly if the first is below the
/// second as a signed one.
pub fn comparison_tells()
    ensures { ComparisonTells }
{}

/// Checks the definition of CMP: its flags say the order of its operands, as after a comparison of two numbers.
pub fn cmp_tells<B: Bus>()
    ensures { CmpTells B.meaning }
{}

/// Checks the definitions of ADD, ADC, SUB and SBB with AL as first operand: they leave the sum or difference in AL and
/// in the flags, where the decimal adjustments, whose laws begin there, look for it.
pub fn sums_stand_in_al<B: Bus>()
    ensures { SumsStandInAl B.meaning }
{}

/// Checks the definition of DAA: after ADD or ADC of two packed decimal numbers it gives their decimal sum with its
/// carry.
pub fn daa_adds()
    ensures { DaaAdds }
{}

/// Checks the definition of DAS: after SUB or SBB of two packed decimal numbers it gives their decimal difference with
/// its borrow.
pub fn das_subtracts()
    ensures { DasSubtracts }
{}

/// Checks the definition of AAA: after ADD or ADC of two bytes whose low halves are decimal digits it gives their sum's
/// digit, and its carry, which AH takes too.
pub fn aaa_adds()
    ensures { AaaAdds }
{}

/// Checks the definition of AAS: after SUB or SBB of two bytes whose low halves are decimal digits it gives their
/// difference's digit, and its borrow, which AH gives.
pub fn aas_subtracts()
    ensures { AasSubtracts }
{}

/// Checks the definition of AAM: it makes two unpacked digits of a number below 100.
pub fn aam_parts()
    ensures { AamParts }
{}

/// Checks the definition of AAD: it makes a number of two unpacked digits.
pub fn aad_joins()
    ensures { AadJoins }
{}

/// Checks the definitions of AAM and AAD against each other: AAD gives back the AL that AAM parted, whatever it was.
pub fn aad_undoes_aam()
    ensures { AadUndoesAam }
{}

/// Checks the definitions of CBW and CWD: the wider number is the same as a signed one.
pub fn signs_extend()
    ensures { SignsExtend }
{}

/// Checks the definition of NOT, a difference, bit by bit: each is inverted.
pub fn not_inverts()
    ensures { NotInverts }
{}

/// Checks the definition of SHL, n single shifts: they are times 2 to the power n, modulo the width.
pub fn shl_multiplies()
    ensures { ShlMultiplies }
{}

/// Checks the definition of SHR, n single shifts: they divide the unsigned operand by 2 to the power n, toward 0.
pub fn shr_divides()
    ensures { ShrDivides }
{}

/// Checks the definition of SAR, n single shifts: they divide the signed operand by 2 to the power n, toward minus
/// infinity.
pub fn sar_divides()
    ensures { SarDivides }
{}

/// Checks the definitions of ROL and ROR: by as many places as the width has bits they give the operand back.
pub fn rotates_turn_round()
    ensures { RotatesTurnRound }
{}

/// Checks the definitions of RCL and RCR: by one place more than the width has bits they give the operand and CF back.
pub fn rotates_through_carry_turn_round()
    ensures { RotatesThroughCarryTurnRound }
{}

/// Checks the definition of MUL: it leaves the product of the unsigned numbers in AX or DX:AX.
pub fn mul_multiplies<B: Bus>()
    ensures { MulMultiplies B.meaning }
{}

/// Checks the definition of IMUL: it leaves the product of the signed numbers in AX or DX:AX.
pub fn imul_multiplies<B: Bus>()
    ensures { ImulMultiplies B.meaning }
{}

/// Checks the definition of DIV: it leaves a quotient and a remainder of unsigned numbers, so that the divisor times
/// the quotient, plus the remainder, is the dividend, and enters interrupt 0 exactly if no such pair fits.
pub fn div_divides<B: Bus>()
    ensures { DivDivides B.meaning }
{}

/// Checks the definition of IDIV: it leaves a quotient and a remainder of signed numbers, or enters interrupt 0 exactly
/// if no such pair fits. The remainder is 0 or has the dividend's sign; -128 or -32,768 is no quotient.
pub fn idiv_divides<B: Bus>()
    ensures { IdivDivides B.meaning }
{}

//! The operations of arithmetic words within a field.

/// An operation on a field (some digit places) of the registers A, B and C; the other digits do not change. The
/// variants are in the order of the operation numbers 00 to 1F in the words.
#[derive(Clone, Copy, Debug, PartialEq, Eq)]
pub enum Operation {
    /// `A=0`: clears A.
    ClearA,
    /// `B=0`: clears B.
    ClearB,
    /// `C=0`: clears C.
    ClearC,
    /// `A<>B`: exchanges A and B.
    ExchangeAB,
    /// `B=A`: copies A to B.
    AToB,
    /// `A<>C`: exchanges A and C.
    ExchangeAC,
    /// `C=B`: copies B to C.
    BToC,
    /// `B<>C`: exchanges B and C.
    ExchangeBC,
    /// `A=C`: copies C to A.
    CToA,
    /// `A=A+B`: adds B to A and writes the sum to A.
    AddBToA,
    /// `A=A+C`: adds C to A and writes the sum to A.
    AddCToA,
    /// `A=A+1`: adds 1 to A.
    IncrementA,
    /// `A=A-B`: subtracts B from A and writes the difference to A.
    SubtractBFromA,
    /// `A=A-1`: subtracts 1 from A.
    DecrementA,
    /// `A=A-C`: subtracts C from A and writes the difference to A.
    SubtractCFromA,
    /// `C=C+C`: adds C to itself and writes the sum to C.
    DoubleC,
    /// `C=A+C`: adds A to C and writes the sum to C.
    AddAToC,
    /// `C=C+1`: adds 1 to C.
    IncrementC,
    /// `C=A-C`: subtracts C from A and writes the difference to C.
    SubtractCFromAToC,
    /// `C=C-1`: subtracts 1 from C.
    DecrementC,
    /// `C=0-C`: subtracts C from 0 and writes the difference to C.
    NegateC,
    /// `C=-C-1`: subtracts C and 1 from 0 and writes the difference to C.
    ComplementC,
    /// `?B#0`: sets the carry if B is not 0.
    TestBNonzero,
    /// `?C#0`: sets the carry if C is not 0.
    TestCNonzero,
    /// `?A<C`: sets the carry if A is less than C.
    TestALessThanC,
    /// `?A<B`: sets the carry if A is less than B.
    TestALessThanB,
    /// `?A#0`: sets the carry if A is not 0.
    TestANonzero,
    /// `?A#C`: sets the carry if A and C differ.
    TestADiffersFromC,
    /// `RSHFA`: shifts A right by one digit.
    ShiftRightA,
    /// `RSHFB`: shifts B right by one digit.
    ShiftRightB,
    /// `RSHFC`: shifts C right by one digit.
    ShiftRightC,
    /// `LSHFA`: shifts A left by one digit.
    ShiftLeftA,
}

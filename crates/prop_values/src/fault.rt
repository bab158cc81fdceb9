ghost use Rattle.std.specs.Prelude.{◌≡◌, ◌↔◌, IsTrue};
ghost use Rattle.prop_values.specs.Faults.{fault_name, holds, no_faults, one_fault, union};

use fixed_num::Arith;
use halts::Halt;

/// Why an expression has no value.
#[derive(Clone, Copy, Debug, PartialEq, Eq)]
pub enum EvalFault {
    /// A value is not of the form that is wanted.
    WrongType,
    NotColor,
    NotNumberText,
    /// An index is outside a list or text.
    IndexOutside,
    IndexNotWhole,
    DivideByZero,
    /// A number is past the bound.
    Overflow,
    /// A part of a color is out of range.
    ColorRange,
    /// Two values that are compared have no order.
    NotOrdered,
    /// A text is not of the set that is wanted.
    NotInEnum,
}

impl EvalFault {
    pub fn name(self) -> &'static str
        ensures { result.now ≡ fault_name self }
    {
        match self {
            EvalFault::WrongType => "WrongType",
            EvalFault::NotColor => "NotColor",
            EvalFault::NotNumberText => "NotNumberText",
            EvalFault::IndexOutside => "IndexOutside",
            EvalFault::IndexNotWhole => "IndexNotWhole",
            EvalFault::DivideByZero => "DivideByZero",
            EvalFault::Overflow => "Overflow",
            EvalFault::ColorRange => "ColorRange",
            EvalFault::NotOrdered => "NotOrdered",
            EvalFault::NotInEnum => "NotInEnum",
        }
    }
}

impl From<Arith> for EvalFault {
    ghost use Rattle.std.specs.Prelude.{◌≡◌};
    ghost use Rattle.prop_values.specs.Faults.{fault_of};

    ghost from_gives = { λ arith fault. fault ≡ fault_of arith };

    fn from(arith: Arith) -> EvalFault {
        match arith {
            Arith::Overflow => EvalFault::Overflow,
            Arith::DivideByZero => EvalFault::DivideByZero,
        }
    }
}

impl From<EvalFault> for Halt<EvalFault> {
    ghost use Rattle.std.specs.Prelude.{◌≡◌};
    ghost use Rattle.halts.specs.declared.halt.Halt.TheVariants.{Fault};

    ghost from_gives = { λ fault halt. halt ≡ Fault fault };

    fn from(fault: EvalFault) -> Halt<EvalFault> {
        Halt::Fault(fault)
    }
}

/// A set of faults: each is in it where the field of its name is true.
#[derive(Clone, Copy, Debug, PartialEq, Eq)]
pub struct FaultSet {
    pub wrong_type: bool,
    pub not_color: bool,
    pub not_number_text: bool,
    pub index_outside: bool,
    pub index_not_whole: bool,
    pub divide_by_zero: bool,
    pub overflow: bool,
    pub color_range: bool,
    pub not_ordered: bool,
    pub not_in_enum: bool,
}

impl FaultSet {
    pub fn empty() -> FaultSet
        ensures { result ≡ no_faults }
    {
        FaultSet {
            wrong_type: false,
            not_color: false,
            not_number_text: false,
            index_outside: false,
            index_not_whole: false,
            divide_by_zero: false,
            overflow: false,
            color_range: false,
            not_ordered: false,
            not_in_enum: false,
        }
    }

    /// The set of this fault alone.
    pub fn one(fault: EvalFault) -> FaultSet
        ensures { result ≡ one_fault fault }
    {
        let mut set = FaultSet::empty();
        match fault {
            EvalFault::WrongType => set.wrong_type = true,
            EvalFault::NotColor => set.not_color = true,
            EvalFault::NotNumberText => set.not_number_text = true,
            EvalFault::IndexOutside => set.index_outside = true,
            EvalFault::IndexNotWhole => set.index_not_whole = true,
            EvalFault::DivideByZero => set.divide_by_zero = true,
            EvalFault::Overflow => set.overflow = true,
            EvalFault::ColorRange => set.color_range = true,
            EvalFault::NotOrdered => set.not_ordered = true,
            EvalFault::NotInEnum => set.not_in_enum = true,
        }
        set
    }

    /// The faults that are in one of the two sets.
    pub fn union(self, other: FaultSet) -> FaultSet
        ensures { result ≡ union self other }
    {
        FaultSet {
            wrong_type: self.wrong_type | other.wrong_type,
            not_color: self.not_color | other.not_color,
            not_number_text: self.not_number_text | other.not_number_text,
            index_outside: self.index_outside | other.index_outside,
            index_not_whole: self.index_not_whole | other.index_not_whole,
            divide_by_zero: self.divide_by_zero | other.divide_by_zero,
            overflow: self.overflow | other.overflow,
            color_range: self.color_range | other.color_range,
            not_ordered: self.not_ordered | other.not_ordered,
            not_in_enum: self.not_in_enum | other.not_in_enum,
        }
    }

    pub fn holds(self, fault: EvalFault) -> bool
        ensures { result ≡ holds self fault }
    {
        match fault {
            EvalFault::WrongType => self.wrong_type,
            EvalFault::NotColor => self.not_color,
            EvalFault::NotNumberText => self.not_number_text,
            EvalFault::IndexOutside => self.index_outside,
            EvalFault::IndexNotWhole => self.index_not_whole,
            EvalFault::DivideByZero => self.divide_by_zero,
            EvalFault::Overflow => self.overflow,
            EvalFault::ColorRange => self.color_range,
            EvalFault::NotOrdered => self.not_ordered,
            EvalFault::NotInEnum => self.not_in_enum,
        }
    }
}

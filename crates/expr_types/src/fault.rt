ghost use Rattle.std.specs.Prelude.{◌≡◌};
ghost use Rattle.expr_types.specs.FaultName.{code_name};

use decimal_json::Path;

/// Why an expression has no kind, or may not be at its place. Of two at one node the earlier counts.
#[derive(Clone, Copy, Debug, PartialEq, Eq)]
pub enum TypeCode {
    /// What an expression gives can never be what is wanted.
    Kind,
    /// What an `interpolate` gives can't be interpolated.
    NotInterpolable,
    /// Values of two kinds can't be compared.
    NotComparable,
    /// The zoom, the feature or its state may not be read there.
    Input,
    /// A `zoom` is not the input of the `step` or `interpolate` at the root, or is a second one.
    ZoomPlace,
}

impl TypeCode {
    pub fn name(self) -> &'static str
        ensures { result.now ≡ code_name self }
    {
        match self {
            TypeCode::Kind => "Kind",
            TypeCode::NotInterpolable => "NotInterpolable",
            TypeCode::NotComparable => "NotComparable",
            TypeCode::Input => "Input",
            TypeCode::ZoomPlace => "ZoomPlace",
        }
    }
}

/// The first fault of an expression that is not well typed, and the path of its node.
#[derive(Drop)]
pub struct TypeFault {
    pub path: Path,
    pub code: TypeCode,
}

//! What is of one view of a session's style.

ghost use Rattle.std.specs.Prelude.{◌≡◌};

use decimal_json::Text;
use feature_states::States;
use kept_layers::KeptLayers;
use style_layout::Zoom;

/// One of several views of the style of a session: its name, the zoom and the states of features by which it is shown,
/// the cells of its layers that are kept, and the number of its last listing. `Session::open_view` makes one.
#[derive(Drop)]
pub struct View {
    pub(crate) name: Text,
    pub(crate) zoom: Zoom,
    pub(crate) states: States,
    pub(crate) kept: KeptLayers,
    /// How many cells its last listing evaluated.
    pub(crate) last: u64,
}

impl View {
    /// The name by which it was opened.
    pub fn name(&self) -> &str
        ensures { result.now ≡ self.now.name }
    {
        self.name.as_str()
    }
}

use decimal_json::{Json, Text};
use fixed_num::Fixed;
use prop_values::{Entries, Value};

/// What a line of an edit script does to a style and what is kept beside it. `command_seen` says which edit it is to a
/// clause.
#[derive(Drop)]
pub enum Command {
    /// `["set-paint",layer,name,value]`
    SetPaint(Text, Text, Json),
    /// `["set-layout",layer,name,value]`
    SetLayout(Text, Text, Json),
    /// `["set-filter",layer,filter]`
    SetFilter(Text, Json),
    /// `["set-range",layer,min,max]`: zooms, or `None` where there is no limit.
    SetRange(Text, Option<Fixed>, Option<Fixed>),
    /// `["add-layer",object,before]`: before the layer of this id, or as the last one.
    AddLayer(Json, Option<Text>),
    /// `["remove-layer",id]`
    RemoveLayer(Text),
    /// `["move-layer",id,before]`: before the layer of the second id, or to the end.
    MoveLayer(Text, Option<Text>),
    /// `["set-zoom",z]`
    SetZoom(Fixed),
    /// `["set-state",source,source-layer,id,object]`
    SetState(Text, Text, u64, Entries),
    /// `["remove-state",source,source-layer,id,key]`: the member of one key, or all.
    RemoveState(Text, Text, u64, Option<Text>),
    /// `["add-image",name]`
    AddImage(Text),
    /// `["remove-image",name]`
    RemoveImage(Text),
    /// `["set-global",name,value]`: `Null` takes the set value away.
    SetGlobal(Text, Value),
    /// `["list"]`
    List,
    /// `["stats"]`
    Stats,
    /// `["style"]`
    Style,
}

/// Why a line is no command.
#[derive(Clone, Copy, Debug, PartialEq, Eq)]
pub enum LineFault {
    /// It is no JSON that is accepted.
    Json,
    /// It has none of the forms.
    Form,
    /// A number of it is past the bound of `Fixed`, or an id is not whole from 0 to 2^64 - 1.
    Number,
}

//! Calls of `host_ops`.

use host_ops::{HostOp, ImageSet, ScriptTest, TellFault, TextTest};
use std::alloc::Global;
use std::test::Fail;

const SCRIPTS: [(&'static str, bool); 8] = [
    ("", true),
    ("Aleppo", true),
    ("Москва 東京 🗺", true),
    ("a\u{58F}\u{900}", true),
    ("a\u{590}", false),
    ("a\u{8FF}b", false),
    ("תל אביב", false),
    ("حلب", false),
];

fn is_held<T: TextTest>(test: &T, text: &str) -> bool {
    test.is_held(text)
}

#[test]
fn scripts(rt: HostRuntime) {
    let test = ScriptTest::new();
    let scripts: &dyn HostOp = &test;
    for (text, passes) in SCRIPTS {
        assert!(rt; scripts.answer(text) == passes, "at {text}");
        assert!(rt; is_held(&scripts, text) == passes, "at {text}");
    }
}

#[test]
fn scripts_cannot_change(rt: HostRuntime) -> Result<(), Fail> {
    let mut boxed: Box<dyn HostOp> = Box::new(rt.alloc(), ScriptTest::new())?;
    assert!(rt; !boxed.can_change());
    let told = boxed.tell(rt.alloc(), "حلب", true);
    assert!(rt; told == Err(TellFault::Fixed));
    assert!(rt; !boxed.answer("حلب"));
    Ok(())
}

// The last `tell` of a name holds, and says nothing of other names.
const TOLD: [(&'static str, bool); 6] = [
    ("pin", true),
    ("", true),
    ("pin", true),
    ("park", true),
    ("pin", false),
    ("lake", false),
];

const ANSWERS: [(&'static str, bool); 5] = [
    ("pin", false),
    ("", true),
    ("park", true),
    ("lake", false),
    ("Park", false),
];

fn tells(alloc: Global, images: &mut ImageSet, name: &str, present: bool) -> bool {
    images.tell(alloc, name, present) == Ok(()) && images.answer(name) == present
}

#[test]
fn images(rt: HostRuntime) {
    let mut images = ImageSet::new(rt.alloc());
    assert!(rt; images.can_change() && !images.answer("pin"));
    for (name, present) in TOLD {
        assert!(rt; tells(rt.alloc(), &mut images, name, present), "at {name}");
    }
    for (name, present) in ANSWERS {
        assert!(rt; images.answer(name) == present, "at {name}");
    }
}

#[test]
fn images_in_a_box(rt: HostRuntime) -> Result<(), Fail> {
    let mut boxed: Box<dyn HostOp> = Box::new(rt.alloc(), ImageSet::new(rt.alloc()))?;
    assert!(rt; boxed.can_change());
    let told = boxed.tell(rt.alloc(), "pin", true);
    assert!(rt; told == Ok(()));
    assert!(rt; boxed.answer("pin") && !boxed.answer("park"));
    Ok(())
}

//! The texts of drills.
use guard_drill::drill_template;
use std::alloc::Global;

const TEMPLATES: &[(u32, &str)] = &[
    (0, r#"{"Resources":{}}"#),
    (
        2,
        r#"{"Resources":{"R0":{"Type":"T::A","Properties":{"N":0}},"R1":{"Type":"T::B","Properties":{"N":1}}}}"#,
    ),
];

/// Whether this is the template of a drill.
fn is_template(alloc: Global, count: u32, text: &str) -> bool {
    match drill_template(alloc, count) {
        Ok(template) => template.as_str() == text,
        Err(_) => false,
    }
}

#[test]
fn writes_templates(rt: HostRuntime) {
    for (count, text) in TEMPLATES {
        assert!(rt; is_template(rt.alloc(), *count, *text), "{count}");
    }
}

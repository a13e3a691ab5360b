//! Worked examples as requests and answers in two parts, of which the first is that of `first_change` where one begins with it.
use crate::replayed::{ANSWERS, REQUESTS};

/// Requests and what they are answered, each in two parts.
#[derive(Clone, Copy)]
pub struct Example {
    /// The lines that are sent.
    pub requests: [&'static str; 2],
    /// The lines that are answered.
    pub answers: [&'static str; 2],
}

pub const FIRST_CHANGE: Example = Example {
    requests: [REQUESTS, ""],
    answers: [ANSWERS, ""],
};

pub const ROW_SECURITY_THEN_POLICY: Example = Example {
    requests: [
        REQUESTS,
        r#"{"do":"row_security","on":"notes","enable":true,"force":false,"session":1}
{"do":"create_policy","on":"notes","name":"own","using":"who = current_user","session":1}
"#,
    ],
    answers: [
        ANSWERS,
        r#"{"ok":true,"session":1}
{"changes":[[-1,[1,"ann"]]],"session":2,"sub":1}
{"ok":true,"session":1}
{"changes":[[1,[1,"ann"]]],"session":2,"sub":1}
"#,
    ],
};

pub const GROUPED_SUMS: Example = Example {
    requests: [
        REQUESTS,
        r#"{"do":"create_view","name":"sums","owner":"admin","query":"select who, sum(id) as s, count(*) as n from notes where id < 100 group by who","session":1}
{"do":"grant","on":"sums","privileges":["select"],"to":"ann","session":1}
{"do":"subscribe","on":"sums","session":2}
{"do":"write","entries":[{"on":"notes","insert":[4,"ann"]}],"session":1}
{"do":"write","entries":[{"on":"notes","delete":[4,"ann"]},{"on":"notes","delete":[1,"ann"]}],"session":1}
{"do":"write","entries":[{"on":"notes","insert":[100,"ann"]}],"session":1}
"#,
    ],
    answers: [
        ANSWERS,
        r#"{"ok":true,"session":1}
{"ok":true,"session":1}
{"ok":true,"session":2,"sub":2}
{"changes":[[1,["ann",1,1]]],"session":2,"sub":2}
{"ok":true,"session":1}
{"changes":[[1,[4,"ann"]]],"session":2,"sub":1}
{"changes":[[-1,["ann",1,1]],[1,["ann",5,2]]],"session":2,"sub":2}
{"ok":true,"session":1}
{"changes":[[-1,[1,"ann"]],[-1,[4,"ann"]]],"session":2,"sub":1}
{"changes":[[-1,["ann",5,2]]],"session":2,"sub":2}
{"ok":true,"session":1}
{"changes":[[1,[100,"ann"]]],"session":2,"sub":1}
"#,
    ],
};

pub const REVOKE_TAKES_BACK: Example = Example {
    requests: [
        REQUESTS,
        r#"{"do":"revoke","on":"notes","privileges":["select"],"to":"ann","session":1}
{"do":"grant","on":"notes","privileges":["select"],"to":"ann","session":1}
{"do":"write","entries":[{"on":"notes","insert":[2,"x"]}],"session":1}
{"do":"subscribe","on":"notes","session":2}
"#,
    ],
    answers: [
        ANSWERS,
        r#"{"ok":true,"session":1}
{"changes":[[-1,[1,"ann"]]],"ended":"privilege","session":2,"sub":1}
{"ok":true,"session":1}
{"ok":true,"session":1}
{"ok":true,"session":2,"sub":2}
{"changes":[[1,[1,"ann"]],[1,[2,"x"]]],"session":2,"sub":2}
"#,
    ],
};

pub const EXCEPT_UNDER_POLICY: Example = Example {
    requests: [
        "",
        r#"{"do":"begin","role":"admin","session":1}
{"do":"create_role","name":"ann","session":1}
{"do":"create_role","name":"bob","session":1}
{"do":"create_table","name":"a","owner":"admin","columns":[["k","int"],["x","int"]],"session":1}
{"do":"create_table","name":"b","owner":"admin","columns":[["k","int"],["y","int"]],"session":1}
{"do":"create_view","name":"e","owner":"admin","query":"select x from a except select y from b","session":1}
{"do":"grant","on":"a","privileges":["select"],"to":"public","session":1}
{"do":"grant","on":"b","privileges":["select"],"to":"public","session":1}
{"do":"grant","on":"e","privileges":["select"],"to":"public","session":1}
{"do":"begin","role":"ann","session":2}
{"do":"begin","role":"bob","session":3}
{"do":"write","entries":[{"on":"a","insert":[1,5]},{"on":"b","insert":[1,5]}],"session":1}
{"do":"row_security","on":"b","enable":true,"force":false,"session":1}
{"do":"create_policy","on":"b","name":"forbob","to":["bob"],"using":"true","session":1}
{"do":"subscribe","on":"e","session":2}
{"do":"subscribe","on":"e","session":3}
"#,
    ],
    answers: [
        "",
        r#"{"ok":true,"session":1}
{"ok":true,"session":1}
{"ok":true,"session":1}
{"ok":true,"session":1}
{"ok":true,"session":1}
{"ok":true,"session":1}
{"ok":true,"session":1}
{"ok":true,"session":1}
{"ok":true,"session":1}
{"ok":true,"session":2}
{"ok":true,"session":3}
{"ok":true,"session":1}
{"ok":true,"session":1}
{"ok":true,"session":1}
{"ok":true,"session":2,"sub":1}
{"changes":[[1,[5]]],"session":2,"sub":1}
{"ok":true,"session":3,"sub":2}
"#,
    ],
};

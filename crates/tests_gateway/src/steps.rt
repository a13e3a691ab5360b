//! Worked conversations with a gateway that follows a log: what it takes, what each client is told of it, and what the journal has.
use crate::playing::played;
use std::test::Fail;

/// A step is done whole, and each client is told once what differs after it, also on which relations it may do more and of the shape, and that this is
/// all. What was taken before changes nothing, and of rows that go in and out nobody is told. A client's own request is not done. Names are
/// learned. The journal has a step as one record, and leads back.
const TAKEN: &str = r#"> follow
restored to 0
> come 0 admin
> step main 0 3 "as":"admin","do":"create_role","name":"mia"}|"as":"admin","do":"create_table","name":"notes","owner":"mia","columns":[["id","int"]]}|"as":"mia","do":"write","entries":[{"on":"notes","insert":[1]}]}
> at
at 3, on disk to 0
> sync
0 {"protocol":1,"role":"admin"}
0 {"at":"0123456789abcdef0123456789abcdef.0","names":64}
0 {"settled":true}
0 {"granted":"notes"}
0 {"as":"admin","made":{"do":"create_role","name":"mia"}}
0 {"as":"admin","made":{"do":"create_table","name":"notes","owner":"mia","columns":[["id","int"]]}}
0 {"settled":true}
> at
at 3, on disk to 3
> come 1 mia
> come 2 mia
> say 1 {"id":1,"do":"subscribe","on":"notes"}
> say 2 {"do":"subscribe","on":"notes"}
> sync
1 {"protocol":1,"role":"mia"}
1 {"at":"0123456789abcdef0123456789abcdef.0","names":64}
1 {"settled":true}
1 {"columns":[["id","int"]],"id":1,"ok":true,"sub":1}
1 {"changes":[[1,[1]]],"sub":1}
1 {"settled":true}
2 {"protocol":1,"role":"mia"}
2 {"at":"0123456789abcdef0123456789abcdef.0","names":64}
2 {"settled":true}
2 {"columns":[["id","int"]],"ok":true,"sub":1}
2 {"changes":[[1,[1]]],"sub":1}
2 {"settled":true}
> say 1 {"id":2,"do":"write","entries":[{"on":"notes","insert":[7]}]}
> step main 0 3 "as":"admin","do":"create_role","name":"bob"}
taken before
> step main 3 4 "as":"mia","do":"write","entries":[{"on":"notes","insert":[2]}]}|"as":"mia","do":"write","entries":[{"on":"notes","delete":[2]}]}
> sync
1 {"error":100,"id":2}
1 {"settled":true}
> step main 4 9 "as":"mia","do":"write","entries":[{"on":"notes","insert":[3]}]}|"as":"mia","do":"write","entries":[{"on":"notes","delete":[1]}]}|"as":"mia","do":"write","entries":[{"on":"notes","insert":[4]}]}
> sync
1 {"changes":[[-1,[1]],[1,[3]],[1,[4]]],"sub":1}
1 {"settled":true}
2 {"changes":[[-1,[1]],[1,[3]],[1,[4]]],"sub":1}
2 {"settled":true}
> step main 9 12 "as":"admin","do":"create_table","name":"tags","owner":"admin","columns":[["id","int"]]}|"as":"admin","do":"grant","on":"tags","privileges":["select"],"to":"mia"}|"as":"mia","do":"write","entries":[{"on":"notes","insert":[5]}]}
> sync
0 {"granted":"tags"}
0 {"as":"admin","made":{"do":"create_table","name":"tags","owner":"admin","columns":[["id","int"]]}}
0 {"as":"admin","made":{"do":"grant","on":"tags","privileges":["select"],"to":"mia"}}
0 {"settled":true}
1 {"changes":[[1,[5]]],"sub":1}
1 {"granted":"tags"}
1 {"settled":true}
2 {"changes":[[1,[5]]],"sub":1}
2 {"granted":"tags"}
2 {"settled":true}
> step main 12 13 "as":"admin","do":"grant","on":"tags","privileges":["insert"],"to":"mia"}|"as":"admin","do":"revoke","on":"tags","privileges":["select"],"to":"mia"}
> sync
0 {"as":"admin","made":{"do":"grant","on":"tags","privileges":["insert"],"to":"mia"}}
0 {"as":"admin","made":{"do":"revoke","on":"tags","privileges":["select"],"to":"mia"}}
0 {"settled":true}
1 {"granted":"tags"}
1 {"settled":true}
2 {"granted":"tags"}
2 {"settled":true}
> step main 13 14 "as":"mia","do":"write","entries":[{"on":"notes","delete":[5]}]}|"once":"AAAAAAAAAAAAAAAAAAAAA-","at":"0123456789abcdef0123456789abcdef.0","by":"mia/","digest":"0101010101010101010101010101010101010101010101010101010101010101","done":{"ok":true}}
> at
at 14, on disk to 13
> come 3 mia
> sync
1 {"changes":[[-1,[5]]],"sub":1}
1 {"settled":true}
2 {"changes":[[-1,[5]]],"sub":1}
2 {"settled":true}
3 {"protocol":1,"role":"mia"}
3 {"at":"0123456789abcdef0123456789abcdef.1","names":64}
3 {"settled":true}
> journal
+ "as":"admin","do":"create_role","name":"mia"}
+ "as":"admin","do":"create_table","name":"notes","owner":"mia","columns":[["id","int"]]}
+ "as":"mia","do":"write","entries":[{"on":"notes","insert":[1]}]}
| "step":3}
+ "as":"mia","do":"write","entries":[{"on":"notes","insert":[2]}]}
+ "as":"mia","do":"write","entries":[{"on":"notes","delete":[2]}]}
| "step":4}
+ "as":"mia","do":"write","entries":[{"on":"notes","insert":[3]}]}
+ "as":"mia","do":"write","entries":[{"on":"notes","delete":[1]}]}
+ "as":"mia","do":"write","entries":[{"on":"notes","insert":[4]}]}
| "step":9}
+ "as":"admin","do":"create_table","name":"tags","owner":"admin","columns":[["id","int"]]}
+ "as":"admin","do":"grant","on":"tags","privileges":["select"],"to":"mia"}
+ "as":"mia","do":"write","entries":[{"on":"notes","insert":[5]}]}
| "step":12}
+ "as":"admin","do":"grant","on":"tags","privileges":["insert"],"to":"mia"}
+ "as":"admin","do":"revoke","on":"tags","privileges":["select"],"to":"mia"}
| "step":13}
+ "as":"mia","do":"write","entries":[{"on":"notes","delete":[5]}]}
+ "once":"AAAAAAAAAAAAAAAAAAAAA-","at":"0123456789abcdef0123456789abcdef.0","by":"mia/","digest":"0101010101010101010101010101010101010101010101010101010101010101","done":{"ok":true}}
| "step":14}
> follow
restored to 21
> at
at 14, on disk to 14
> come 1 mia
> say 1 {"do":"subscribe","on":"notes"}
> sync
1 {"protocol":1,"role":"mia"}
1 {"at":"0123456789abcdef0123456789abcdef.1","names":64}
1 {"settled":true}
1 {"columns":[["id","int"]],"ok":true,"sub":1}
1 {"changes":[[1,[3]],[1,[4]]],"sub":1}
1 {"settled":true}
"#;

/// What is not taken kills, and the journal gets nothing of it: a step behind a gap, or that leads nowhere; of another log, or while none is
/// followed; with a request that is refused, or a name that is known.
const FAULTS: [&str; 6] = [
    r#"> follow
restored to 0
> step main 0 3 "as":"admin","do":"create_role","name":"mia"}
> sync
> step main 4 5 "as":"admin","do":"create_role","name":"bob"}
gap at 3
> step main 3 5 "as":"admin","do":"create_role","name":"bob"}
dead
> sync
not synced
> follow
restored to 2
> step main 5 4 "as":"admin","do":"create_role","name":"bob"}
gap at 3
"#,
    r#"> follow
restored to 0
> step other 0 3 "as":"admin","do":"create_role","name":"mia"}
another log
> sync
not synced
"#,
    r#"> step main 0 3 "as":"admin","do":"create_role","name":"mia"}
another log
"#,
    r#"> follow
restored to 0
> come 0 admin
> sync
0 {"protocol":1,"role":"admin"}
0 {"at":"0123456789abcdef0123456789abcdef.0","names":64}
0 {"settled":true}
> step main 0 1 "as":"admin","do":"create_role","name":"mia"}
> sync
0 {"as":"admin","made":{"do":"create_role","name":"mia"}}
0 {"settled":true}
> step main 1 2 "as":"admin","do":"create_role","name":"bob"}|"as":"mia","do":"create_role","name":"leo"}
refused at 2 {"error":11}
> sync
not synced
> journal
+ "as":"admin","do":"create_role","name":"mia"}
| "step":1}
> follow
restored to 2
> step main 1 2 "as":"bob","do":"create_role","name":"leo"}
refused at 1 {"error":5}
"#,
    r#"> follow
restored to 0
> step main 0 1 "once":"AAAAAAAAAAAAAAAAAAAAA-","at":"0123456789abcdef0123456789abcdef.0","by":"mia/","digest":"0101010101010101010101010101010101010101010101010101010101010101","refused":{"error":11}}
> sync
> step main 1 2 "once":"AAAAAAAAAAAAAAAAAAAAB-","at":"0123456789abcdef0123456789abcdef.1","by":"mia/","digest":"0101010101010101010101010101010101010101010101010101010101010101","done":{"ok":true}}|"once":"AAAAAAAAAAAAAAAAAAAAA-","at":"0123456789abcdef0123456789abcdef.0","by":"mia/","digest":"0101010101010101010101010101010101010101010101010101010101010101","done":{"ok":true}}
known name at 2
> journal
+ "once":"AAAAAAAAAAAAAAAAAAAAA-","at":"0123456789abcdef0123456789abcdef.0","by":"mia/","digest":"0101010101010101010101010101010101010101010101010101010101010101","refused":{"error":11}}
| "step":1}
"#,
    r#"> follow
restored to 0
> step main 0 1 nonsense
no step
> step main 0 1 "as":"admin","do":"subscribe","on":"notes"}
no step
> step main 0 1 "once":"AAAAAAAAAAAAAAAAAAAAA-","at":"0123456789abcdef0123456789abcdef.0","by":"mia/","digest":"0101010101010101010101010101010101010101010101010101010101010101","done":7}
no step
> at
at 0, on disk to 0
"#,
];

#[test]
fn steps_are_taken_whole(rt: HostRuntime) -> Result<(), Fail> {
    assert_eq!(rt; played(rt.alloc(), TAKEN)?.text(), TAKEN);
    Ok(())
}

#[test]
fn what_is_not_taken_kills(rt: HostRuntime) -> Result<(), Fail> {
    for conversation in &FAULTS {
        assert_eq!(rt; played(rt.alloc(), conversation)?.text(), *conversation);
    }
    Ok(())
}

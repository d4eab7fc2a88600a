//! Certificates that are read and written again.

use std::alloc::Global;
use std::test::Fail;
use ua_cases::{Asked, expect, expect_of, put_bytes, put_value_of};
use ua_cert::{CertError, read};

/// A text is read as a certificate, and that is written.
struct Rewriting;

impl Asked for Rewriting {
    /// What is written, or why the text is no certificate.
    fn put_answer(&self, alloc: Global, text: &str, answer: &mut String) -> Result<(), Fail> {
        match rewritten(alloc, text) {
            Ok(bytes) => put_bytes(answer, bytes.as_slice()),
            Err(error) => put_value_of(answer, &error),
        }
    }
}

fn rewritten(alloc: Global, text: &str) -> Result<Vec<u8>, CertError> {
    let cert = read(alloc, text.as_bytes())?;
    Ok(cert.write(alloc)?)
}

/// A certificate in the one form is written as it stands.
#[test]
fn each_kind(rt: HostRuntime) -> Result<(), Fail> {
    let texts =
        r#"{"gens":[[0,1],[1,0]],"kind":"member","steps":[["gen",0],["gen",1],["m",1,0]],"target":[0,0],"width":2}
{"gens":[[0,1],[1,0]],"kind":"not_member","rows":[[0,0],[0,1],[1,0]],"target":[1,1],"width":2}
{"gens":[[0,1],[1,0]],"kind":"listing","origins":[["m",2,1],["gen",0],["gen",1]],"ranks":[2,0,1],"rows":[[0,0],[0,1],[1,0]],"width":2}
{"k":3,"kind":"condition","name":"maltsev","steps":[["gen",0],["gen",1],["gen",2],["s",0,1],["s",3,2]]}
{"k":3,"kind":"condition","name":"majority","steps":[["gen",1]]}
{"k":3,"kind":"condition","name":"minority","steps":[["gen",1],["c"]]}
{"k":3,"kind":"condition","name":"pixley","steps":[]}
{"k":4,"kind":"no_condition","name":"nu","rows":[[0,1],[0],[2]]}
{"kind":"chain","name":"jonsson","terms":[[["gen",0]],[],[["gen",1],["m",0,1]]]}
{"kind":"chain","name":"hm","terms":[[["gen",0]],[["gen",2]]]}
{"even":[1],"kind":"no_chain","name":"hm","odd":[0],"rows":[[0,1],[1,0]]}
{"even":[],"kind":"no_chain","name":"jonsson","odd":[],"rows":[]}"#;
    for text in texts.lines() {
        expect_of(rt.alloc(), &Rewriting, text, text)?;
    }
    Ok(())
}

#[test]
fn in_one_form(rt: HostRuntime) -> Result<(), Fail> {
    let cases =
        r#"{ "width" : 2, "target" : [ 0 , 1 ], "steps" : [ [ "gen" , 0 ] ], "kind" : "member", "gens" : [ [ 0 , 1 ] ] } => {"gens":[[0,1]],"kind":"member","steps":[["gen",0]],"target":[0,1],"width":2}
{"gens":[],"kind":"member","steps":[],"target":[4294967295],"width":7,"width":4294967295} => {"gens":[],"kind":"member","steps":[],"target":[4294967295],"width":4294967295}
{"k":0,"kind":"condition","name":"nu","steps":[["\u0061\"\u000a\u00e9",1]]} => {"k":0,"kind":"condition","name":"nu","steps":[["a\"\né",1]]}"#;
    expect(rt.alloc(), &Rewriting, cases)
}

/// Texts that no script can write, since a certificate begins with a brace there.
#[test]
fn no_objects(rt: HostRuntime) -> Result<(), Fail> {
    let cases = r#"[] trailing => Json
1e999 => Json
[] => Shape(Listed { items: [] })
7 => Shape(Listed { items: [] })
"member" => Shape(Listed { items: [] })
null => Shape(Listed { items: [] })"#;
    expect(rt.alloc(), &Rewriting, cases)
}

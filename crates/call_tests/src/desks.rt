//! Worked examples of `desk`.
use crate::calls::{Case, check_all};
use std::test::Fail;

const CASES: [Case; 5] = [
    // no control thread
    Case {
        words: &["desk", "a.nft"],
        script: "add set ip t p { type inet_service ; flags interval ; }\n\
                 add element ip t p { 22 }\n",
        keys: "",
        output: "# commit generation 1 purged 0\n\
                 table ip t {\n\
                 \tset p {\n\
                 \t\ttype inet_service\n\
                 \t\tflags interval\n\
                 \t\telements = { 22 }\n\
                 \t}\n\
                 }\n",
        status: 0,
    },
    // sixteen with nothing to do
    Case {
        words: &["desk", "a.nft"],
        script: "add set ip t p { type inet_service ; flags interval ; }\n\
                 round\nround\nround\nround\nround\nround\nround\nround\n\
                 round\nround\nround\nround\nround\nround\nround\nround\n",
        keys: "",
        output: "table ip t {\n\
                 \tset p {\n\
                 \t\ttype inet_service\n\
                 \t\tflags interval\n\
                 \t}\n\
                 }\n",
        status: 0,
    },
    // a refused change, in both modes
    Case {
        words: &["desk", "a.nft"],
        script: "add set ip t p { type inet_service ; flags interval ; }\n\
                 add element ip t p { 22 }\n\
                 round\n\
                 create element ip t p { 22 }\n\
                 add element ip t p { 80 }\n",
        keys: "",
        output: "# commit generation 1 purged 0\n\
                 # clerk 1 line 4 refused exists ip t p element 0\n\
                 # clerk 1 fail generation 1\n\
                 table ip t {\n\
                 \tset p {\n\
                 \t\ttype inet_service\n\
                 \t\tflags interval\n\
                 \t\telements = { 22 }\n\
                 \t}\n\
                 }\n",
        status: 1,
    },
    Case {
        words: &["desk", "a.nft", "--keep-going"],
        script: "add set ip t p { type inet_service ; flags interval ; }\n\
                 add element ip t p { 22 }\n\
                 round\n\
                 create element ip t p { 22 }\n\
                 add element ip t p { 80 }\n",
        keys: "",
        output: "# commit generation 1 purged 0\n\
                 # clerk 1 line 4 refused exists ip t p element 0\n\
                 # clerk 1 commit generation 2 purged 0\n\
                 table ip t {\n\
                 \tset p {\n\
                 \t\ttype inet_service\n\
                 \t\tflags interval\n\
                 \t\telements = { 22,\n\
                 \t\t\t     80 }\n\
                 \t}\n\
                 }\n",
        status: 1,
    },
    // a transaction after one that failed
    Case {
        words: &["desk", "a.nft"],
        script: "add set ip t p { type inet_service ; flags interval ; }\n\
                 add element ip t p { 80 }\n\
                 round\n\
                 delete element ip t p { 443 }\n\
                 commit\n\
                 delete element ip t p { 80 }\n",
        keys: "",
        output: "# commit generation 1 purged 0\n\
                 # clerk 1 line 4 refused missing ip t p\n\
                 # clerk 1 fail generation 1\n\
                 # clerk 1 commit generation 2 purged 0\n\
                 table ip t {\n\
                 \tset p {\n\
                 \t\ttype inet_service\n\
                 \t\tflags interval\n\
                 \t}\n\
                 }\n",
        status: 1,
    },
];

#[test]
fn control_threads(rt: HostRuntime) -> Result<(), Fail> {
    check_all(&rt, rt.alloc(), &CASES)
}

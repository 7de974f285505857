//! Worked examples of the option `--json`.
use crate::calls::{Case, NOTHING, Wanted, check_all, check_failing};
use std::test::Fail;

const AS_JSON: [&str; 3] = ["list", "a.nft", "--json"];

const LISTED: [Case; 3] = [
    // a set of two fields
    Case {
        words: &AS_JSON,
        script: "table ip filter {\n\
                 \tset s {\n\
                 \t\ttype ipv4_addr . inet_service\n\
                 \t\tflags interval\n\
                 \t\telements = { 10.0.0.5 . 1024, 192.168.1.0-192.168.2.1 . 2048 }\n\
                 \t}\n\
                 }\n",
        keys: "",
        output: "{\"nftables\":[{\"metainfo\":{\"json_schema_version\":1}},{\"table\":{\"family\":\"ip\",\"name\":\"filter\"}},{\"set\":{\"elem\":[{\"concat\":[\"10.0.0.5\",1024]},{\"concat\":[{\"range\":[\"192.168.1.0\",\"192.168.2.1\"]},2048]}],\"family\":\"ip\",\"flags\":[\"interval\"],\"name\":\"s\",\"table\":\"filter\",\"type\":[\"ipv4_addr\",\"inet_service\"]}}]}\n",
        status: 0,
    },
    // nothing is declared
    Case {
        words: &AS_JSON,
        script: "",
        keys: "",
        output: "{\"nftables\":[{\"metainfo\":{\"json_schema_version\":1}}]}\n",
        status: 0,
    },
    // a refused change has no line, and the status says so
    Case {
        words: &AS_JSON,
        script: "add set ip t p { type inet_service ; flags interval ; }\n\
                 add element ip t p { 80-90 }\n\
                 commit\n\
                 add element ip t p { 85-95 }\n",
        keys: "",
        output: "{\"nftables\":[{\"metainfo\":{\"json_schema_version\":1}},{\"table\":{\"family\":\"ip\",\"name\":\"t\"}},{\"set\":{\"elem\":[{\"range\":[80,90]}],\"family\":\"ip\",\"flags\":[\"interval\"],\"name\":\"p\",\"table\":\"t\",\"type\":\"inet_service\"}}]}\n",
        status: 1,
    },
];

/// Commands without JSON, and an option that comes twice.
const NO_COMMANDS: [&[&str]; 4] = [
    &["run", "a.nft", "keys", "--json"],
    &["dump", "a.nft", "--json"],
    &["drill", "--json", "1", "2"],
    &["list", "--json", "a.nft", "--json"],
];

#[test]
fn listings_as_json(rt: HostRuntime) -> Result<(), Fail> {
    check_all(&rt, rt.alloc(), &LISTED)
}

#[test]
fn commands_without_json(rt: HostRuntime) -> Result<(), Fail> {
    for words in &NO_COMMANDS {
        check_failing(&rt, rt.alloc(), words, &[], NOTHING, Wanted::status(2))?;
    }
    Ok(())
}

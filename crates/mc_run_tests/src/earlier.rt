// A store that the program wrote before there was layout 2.
use crate::both::over_sql;
use crate::worlds::{Played, play};
use mc_file_tests::{LAYOUT_ONE, after, in_memory, migrated_twice, number};
use mc_keep::KeepError;
use mc_keep_sql::SqlKeeper;
use sqlite::MemStore;
use std::alloc::{AllocError, Global};
use std::sync::Wait;
use std::test::Fail;
use std::thread::Threads;

// The rows that it wrote for replica `a` of the script below, and no others.
const WRITTEN: &str = "\
INSERT INTO block (cid, bytes) VALUES (x'9cc3b5c93c8ef0e963bcd587663c75eefe7cd769f9bbedbbf63a757c5ebe177d', x'0a0b0a070a022f6b1a01051801');\
INSERT INTO block (cid, bytes) VALUES (x'1b955af0a67272180f82fb9a41e5e3287be26932c08a67d116f701112b946c22', x'0a140a070a022f6b1a01050a070a022f6c1a01021801');\
INSERT INTO block (cid, bytes) VALUES (x'4314096e8723ed97274dbe0f34ac20c30f4ae8197ba97249cd631096770e53a0', x'0a1d0a070a022f6b1a01050a070a022f6c1a01020a070a022f7a1a01091801');\
INSERT INTO block (cid, bytes) VALUES (x'76729453e953b4314d42248ef90dedb42ed9683f5bfda859cc31812948b8b6ee', x'122a0a24017012201b955af0a67272180f82fb9a41e5e3287be26932c08a67d116f701112b946c22120018000a42123e0a022f6b12382f4349514258464b323643544845345159423642505847534234585253513637434e455a4d4243544832454c504f414952464f4b475949511802');\
INSERT INTO block (cid, bytes) VALUES (x'd7b46cfed8cebd674c05d4617443f5b333c829fe6c6af4698c4f7d41f9625e77', x'122a0a24017012204314096e8723ed97274dbe0f34ac20c30f4ae8197ba97249cd631096770e53a012001800122a0a240170122076729453e953b4314d42248ef90dedb42ed9683f5bfda859cc31812948b8b6ee12001800122a0a24017012209cc3b5c93c8ef0e963bcd587663c75eefe7cd769f9bbedbbf63a757c5ebe177d120018000a0e0a0a0a052f676f6e651a01011803');\
INSERT INTO block (cid, bytes) VALUES (x'2406169e95f703e83d34299a6085ad8a5af3a4da665b22ffff84680b22eb4791', x'122a0a2401701220d7b46cfed8cebd674c05d4617443f5b333c829fe6c6af4698c4f7d41f9625e77120018000a4512410a052f676f6e6512382f4349514e504e444d37334d4d35504c484a51433549594c5549503233474d364946483747593258554e47474536374b42374652463435591804');\
INSERT INTO block (cid, bytes) VALUES (x'0324862eed5705a5b149121c5cf6a9a1f176d481c91ff22520f4f5a6c3df6dce', x'122a0a24017012202406169e95f703e83d34299a6085ad8a5af3a4da665b22ffff84680b22eb4791120018000a080a040a022f651805');\
INSERT INTO mark (pos, cid) VALUES (0, x'9cc3b5c93c8ef0e963bcd587663c75eefe7cd769f9bbedbbf63a757c5ebe177d');\
INSERT INTO mark (pos, cid) VALUES (1, x'1b955af0a67272180f82fb9a41e5e3287be26932c08a67d116f701112b946c22');\
INSERT INTO mark (pos, cid) VALUES (2, x'4314096e8723ed97274dbe0f34ac20c30f4ae8197ba97249cd631096770e53a0');\
INSERT INTO mark (pos, cid) VALUES (3, x'76729453e953b4314d42248ef90dedb42ed9683f5bfda859cc31812948b8b6ee');\
INSERT INTO mark (pos, cid) VALUES (4, x'd7b46cfed8cebd674c05d4617443f5b333c829fe6c6af4698c4f7d41f9625e77');\
INSERT INTO mark (pos, cid) VALUES (5, x'2406169e95f703e83d34299a6085ad8a5af3a4da665b22ffff84680b22eb4791');\
INSERT INTO mark (pos, cid) VALUES (6, x'0324862eed5705a5b149121c5cf6a9a1f176d481c91ff22520f4f5a6c3df6dce');\
INSERT INTO link (cid) VALUES (x'1b955af0a67272180f82fb9a41e5e3287be26932c08a67d116f701112b946c22');\
INSERT INTO link (cid) VALUES (x'4314096e8723ed97274dbe0f34ac20c30f4ae8197ba97249cd631096770e53a0');\
INSERT INTO link (cid) VALUES (x'76729453e953b4314d42248ef90dedb42ed9683f5bfda859cc31812948b8b6ee');\
INSERT INTO link (cid) VALUES (x'9cc3b5c93c8ef0e963bcd587663c75eefe7cd769f9bbedbbf63a757c5ebe177d');\
INSERT INTO link (cid) VALUES (x'd7b46cfed8cebd674c05d4617443f5b333c829fe6c6af4698c4f7d41f9625e77');\
INSERT INTO link (cid) VALUES (x'2406169e95f703e83d34299a6085ad8a5af3a4da665b22ffff84680b22eb4791');\
INSERT INTO head (cid, height) VALUES (x'0324862eed5705a5b149121c5cf6a9a1f176d481c91ff22520f4f5a6c3df6dce', x'0000000000000005');\
INSERT INTO element (key, cid, value, priority) VALUES (x'2f6b', x'9cc3b5c93c8ef0e963bcd587663c75eefe7cd769f9bbedbbf63a757c5ebe177d', x'05', x'0000000000000001');\
INSERT INTO element (key, cid, value, priority) VALUES (x'2f6b', x'1b955af0a67272180f82fb9a41e5e3287be26932c08a67d116f701112b946c22', x'05', x'0000000000000001');\
INSERT INTO element (key, cid, value, priority) VALUES (x'2f6c', x'1b955af0a67272180f82fb9a41e5e3287be26932c08a67d116f701112b946c22', x'02', x'0000000000000001');\
INSERT INTO element (key, cid, value, priority) VALUES (x'2f6b', x'4314096e8723ed97274dbe0f34ac20c30f4ae8197ba97249cd631096770e53a0', x'05', x'0000000000000001');\
INSERT INTO element (key, cid, value, priority) VALUES (x'2f6c', x'4314096e8723ed97274dbe0f34ac20c30f4ae8197ba97249cd631096770e53a0', x'02', x'0000000000000001');\
INSERT INTO element (key, cid, value, priority) VALUES (x'2f7a', x'4314096e8723ed97274dbe0f34ac20c30f4ae8197ba97249cd631096770e53a0', x'09', x'0000000000000001');\
INSERT INTO element (key, cid, value, priority) VALUES (x'2f676f6e65', x'd7b46cfed8cebd674c05d4617443f5b333c829fe6c6af4698c4f7d41f9625e77', x'01', x'0000000000000003');\
INSERT INTO element (key, cid, value, priority) VALUES (x'2f65', x'0324862eed5705a5b149121c5cf6a9a1f176d481c91ff22520f4f5a6c3df6dce', x'', x'0000000000000005');\
INSERT INTO tomb (key, id) VALUES (x'2f6b', x'2f4349514258464b323643544845345159423642505847534234585253513637434e455a4d4243544832454c504f414952464f4b47594951');\
INSERT INTO tomb (key, id) VALUES (x'2f676f6e65', x'2f4349514e504e444d37334d4d35504c484a51433549594c5549503233474d364946483747593258554e47474536374b4237465246343559');\
INSERT INTO value (key, priority, value) VALUES (x'2f6b', x'0000000000000001', x'05');\
INSERT INTO value (key, priority, value) VALUES (x'2f6c', x'0000000000000001', x'02');\
INSERT INTO value (key, priority, value) VALUES (x'2f7a', x'0000000000000001', x'09');\
INSERT INTO value (key, priority, value) VALUES (x'2f65', x'0000000000000005', x'')";

// What the two others do before their blocks come to `a`: three blocks tie at `/k`, of which the one with the least identifier
// comes second, and is hidden then.
const OTHERS: &str =
    "begin b\nbput b /k 05\nbput b /l 02\ncommit b\nbegin c\nbput c /k 05\nbput c /l 02\nbput c /z 09\ncommit c\n";

const SCRIPT: &str =
    "cast b\ncast c\nput a /k 05\nhear a 1\nhear a 2\nwork a 1\ndel b /k\ncast b\nhear a 3\nwork a 1\nput a /gone 01\ndel a /gone\nput a /e -";

/// The statements that make the tables with these rows.
pub(crate) fn statements(alloc: Global) -> Result<String, AllocError> {
    format!(in alloc; "{LAYOUT_ONE};{WRITTEN}")
}

// A keeper over the tables with these rows.
fn adopted_store(alloc: Global) -> Result<SqlKeeper<MemStore>, KeepError> {
    let statements = statements(alloc)?;
    SqlKeeper::adopt(after(alloc, statements.as_str())?)
}

// The store, which a replica migrates when it is opened, and what the others did.
fn opened<W: Threads + Wait + Sync>(alloc: Global, wait: &W) -> Result<Played, Fail> {
    let others = format!(in alloc; "{OTHERS}del b /k")?;
    let (second, third) = (in_memory(alloc, ""), in_memory(alloc, ""));
    play(
        alloc,
        adopted_store(alloc),
        second,
        third,
        others.as_str(),
        wait,
    )
}

// The same blocks, written at layout 2.
fn fresh<W: Threads + Wait + Sync>(alloc: Global, wait: &W) -> Result<Played, Fail> {
    let script = format!(in alloc; "{OTHERS}{SCRIPT}")?;
    over_sql(alloc, "", script.as_str(), wait)
}

#[test]
fn a_store_of_before_holds_what_a_fresh_one_holds(rt: HostRuntime) -> Result<(), Fail> {
    let opened = opened(rt.alloc(), &rt)?;
    let fresh = fresh(rt.alloc(), &rt)?;
    assert_eq!(rt; opened.shown.as_str(), fresh.shown.as_str());
    assert!(rt; opened.faults == 0 && fresh.faults == 0);
    Ok(())
}

/// Plain statements over the migrated tables, and what they give: the winner of `/k` is the least block that is not hidden.
pub(crate) const WINNERS: [(&str, u64); 8] = [
    ("SELECT layout FROM meta", 2),
    ("SELECT count(*) FROM progress", 0),
    ("SELECT count(*) FROM block", 7),
    ("SELECT count(*) FROM winner", 4),
    (
        "SELECT count(*) FROM winner WHERE key = x'2f65' AND cid = x'0324862eed5705a5b149121c5cf6a9a1f176d481c91ff22520f4f5a6c3df6dce'",
        1,
    ),
    (
        "SELECT count(*) FROM winner WHERE key = x'2f6b' AND cid = x'4314096e8723ed97274dbe0f34ac20c30f4ae8197ba97249cd631096770e53a0'",
        1,
    ),
    (
        "SELECT count(*) FROM winner WHERE key = x'2f6c' AND cid = x'1b955af0a67272180f82fb9a41e5e3287be26932c08a67d116f701112b946c22'",
        1,
    ),
    (
        "SELECT count(*) FROM winner WHERE key = x'2f7a' AND cid = x'4314096e8723ed97274dbe0f34ac20c30f4ae8197ba97249cd631096770e53a0'",
        1,
    ),
];

// What a migration of the store takes, where the statements give what they must then.
fn taken(alloc: Global) -> Result<Option<(u64, u64)>, KeepError> {
    let (done, keeper) = migrated_twice(alloc, adopted_store(alloc)?);
    let mut connection = keeper.into_connection();
    for (sql, wanted) in WINNERS {
        if number(&mut connection, sql) != Some(wanted) {
            return Ok(None);
        }
    }
    Ok(done)
}

#[test]
fn statements_read_a_migrated_store(rt: HostRuntime) -> Result<(), Fail> {
    assert_eq!(rt; taken(rt.alloc())?, Some((4, 1)));
    Ok(())
}

//! What refusals mean, as it is told beside them.

use explanations::{Asked, explain};
use std::alloc::{AllocError, Global};
use std::test::Fail;

/// A command that is refused, and what is told of its refusal.
struct Row<'a> {
    /// The command, its directory and its other word.
    words: [&'a str; 3],
    /// Its status.
    status: u8,
    /// What it was given to read.
    text: &'a str,
    /// The line of the refusal.
    said: &'a str,
    /// What is told of it.
    told: &'a str,
}

const ROWS: &[Row<'static>] = &[
    Row {
        words: ["check", "", ""],
        status: 1,
        text: "DATABASE club\r\ntable item\r\n",
        said: "! schema line 2: line",
        told: "bec: The line has none of a schema's forms, or stands where it may not. Compare\n\
\x20    it with the forms in docs/SCHEMAS.md. If it is one past the end, a table\n\
\x20    lacks its SAMPLE line.\n\
\x20   2 | table item\n\
bec: Keywords are written in capital letters, names in small ones.\n",
    },
    Row {
        words: ["init", "club", ""],
        status: 1,
        text: "\u{feff}DATABASE club\n",
        said: "! schema line 1: line",
        told: "bec: The line has none of a schema's forms, or stands where it may not. Compare\n\
\x20    it with the forms in docs/SCHEMAS.md. If it is one past the end, a table\n\
\x20    lacks its SAMPLE line.\n\
\x20   1 | \u{feff}DATABASE club\n\
bec: The text begins with a byte order mark. Save it as UTF-8 without one.\n",
    },
    Row {
        words: ["check", "", ""],
        status: 1,
        text: "DATABASE club\nTABLE item\nUNIQUE name\n",
        said: "! not confluent line 3",
        told: "bec: Two members who write at the same time can break this condition together,\n\
\x20    as the history shows. docs/CONFLUENCE.md says what to write instead.\n\
\x20   3 | UNIQUE name\n",
    },
    Row {
        words: ["apply", "club", ""],
        status: 1,
        text: "INSERT list \"Home\" 9\n\nDELETE list \"x\";\n",
        said: "! transaction 3:8: unknown word",
        told: "bec: A word is missing or may not stand here. A line is INSERT table value ..\n\
\x20    or DELETE rowname.\n\
\x20   3 | DELETE list \"x\";\n\
\x20     |        ^\n",
    },
    Row {
        words: ["apply", "club", ""],
        status: 1,
        text: "INSERT item \"äöüäöüäöüäöüäöüäöüäöüäöüäöüäöü\" 0123456789abcdef0123456789abcdef0123456789abcdef0123456789abcdef:0 'Kayak' 7\n",
        said: "! transaction 1:80: not a value",
        told: "bec: This is no value. Values are NULL, TRUE, FALSE, integers, texts in double\n\
\x20    quotes, names of rows as `bec dump` prints them, and $1, $2 ..\n\
\x20   1 | öüäöüäöüäöüäöüäöü\" 0123456789abcdef0123456789abcde\n\
\x20     |                        ^\n",
    },
    Row {
        words: ["apply", "club", ""],
        status: 1,
        text: "INSERT item 1\n",
        said: "! transaction 1:1: too long",
        told: "bec: A transaction may have 4194304 bytes. Divide it.\n",
    },
    Row {
        words: ["query", "club", "SELECT COUNT(name) FROM item"],
        status: 1,
        text: "SELECT COUNT(name) FROM item\n",
        said: "! query 1:8: unknown word",
        told: "bec: A word is missing or may not stand here. The form is SELECT items FROM\n\
\x20    table [WHERE condition] [ORDER BY keys] [LIMIT n].\n\
\x20   1 | SELECT COUNT(name) FROM item\n\
\x20     |        ^\n\
bec: Rows are not counted or summed here. Ask for the rows, and count the\n\
\x20    lines: `bec query DIR TEXT | wc -l`.\n",
    },
    Row {
        words: ["query", "club", "select name FROM item"],
        status: 1,
        text: "select name FROM item\n",
        said: "! query 1:1: unknown word",
        told: "bec: A word is missing or may not stand here. The form is SELECT items FROM\n\
\x20    table [WHERE condition] [ORDER BY keys] [LIMIT n].\n\
\x20   1 | select name FROM item\n\
\x20     | ^\n\
bec: Keywords are written in capital letters, names in small ones.\n",
    },
    Row {
        words: ["query", "club", ""],
        status: 1,
        text: "\n",
        said: "! query 1:1: unknown word",
        told: "bec: A word is missing or may not stand here. The form is SELECT items FROM\n\
\x20    table [WHERE condition] [ORDER BY keys] [LIMIT n].\n\
\x20   1 | \n\
\x20     | ^\n",
    },
    Row {
        words: ["apply", "club", ""],
        status: 1,
        text: "INSERT list\t\"Ho\x01me\" 9\n \t\nDELETE 0123456789abcdef0123456789abcdef0123456789abcdef0123456789abcdef:1\n",
        said: "! invalid reason 4 operation 1",
        told: "bec: Operation 1, counted from 0, refers to a row that is not there: it was\n\
\x20    never written, or is deleted. `bec dump club` shows the rows. Nothing was\n\
\x20    written.\n\
\x20   3 | DELETE 0123..:1\n",
    },
    Row {
        words: ["heads", "", ""],
        status: 1,
        text: "",
        said: "! update 3: version at 17",
        told: "bec: Record 3 is no update of a version that this program knows. A newer\n\
\x20    program may have made it. Or the input is of another kind: `heads` reads a\n\
\x20    stream, `dump` a bundle.\n",
    },
    Row {
        words: ["heads", "", ""],
        status: 1,
        text: "",
        said: "! update 12: lacks 0123456789abcdef0123456789abcdef0123456789abcdef0123456789abcdef",
        told: "bec: Record 12 comes after an update that the input lacks. Each update has to\n\
\x20    stand behind those that it comes after. Export it again.\n",
    },
    Row {
        words: ["apply", "club", ""],
        status: 1,
        text: "",
        said: "! author not listed",
        told: "bec: The schema lists its authors, and the key of club is none of them. Write\n\
\x20    with a key that is listed. A new list makes a new database.\n",
    },
    Row {
        words: ["frob", "club", ""],
        status: 2,
        text: "",
        said: "! words",
        told: "bec: These words are no command. `bec help` lists the commands.\n",
    },
    Row {
        words: ["apply", "", ""],
        status: 2,
        text: "",
        said: "! words",
        told: "bec: These words are no command. `bec help apply` shows the form.\n",
    },
    Row {
        words: ["apply", "club", ""],
        status: 3,
        text: "",
        said: "! store fault",
        told: "bec: A file of the directory could not be read or written, or another program\n\
\x20    is using it. The line above says which. Wait for the other program, or\n\
\x20    look whether the disk is full and the files are yours. What was\n\
\x20    acknowledged is kept.\n",
    },
    Row {
        words: ["sync", "club", "1.2.3.4:1"],
        status: 4,
        text: "",
        said: "! stream fault",
        told: "bec: Nobody answered at 1.2.3.4:1, or the connection failed, or the other one\n\
\x20    was too slow. Look whether the other one serves there, and try again. What\n\
\x20    was held stays, and what came before too.\n",
    },
    Row {
        words: ["dump", "club", ""],
        status: 4,
        text: "",
        said: "! stream fault",
        told: "bec: Standard input could not be read, or standard output could not be written.\n\
\x20    Look whether the disk is full or a program of the pipe ended early. If the\n\
\x20    command writes, what it wrote is kept: look with `bec heads` before you\n\
\x20    write it again.\n",
    },
    Row {
        words: ["dump", "club", ""],
        status: 5,
        text: "",
        said: "",
        told: "bec: Memory ran out. Nothing has changed, but for what a session brought over\n\
\x20    or `watch` took before. Close other programs, and try again.\n",
    },
    Row {
        words: ["sync", "club", "1.2.3.4:1"],
        status: 6,
        text: "",
        said: "! peer stalled",
        told: "bec: The other end's turn brought nothing forward. What was held stays, and\n\
\x20    what was gained before too. Try again, or meet somebody else.\n",
    },
    Row {
        words: ["serve", "club", "1.2.3.4:1"],
        status: 6,
        text: "",
        said: "session 2 peer bad frame",
        told: "bec: session 2: The other end sent bytes that are no frame: it is damaged, or\n\
\x20    is no bec. What was held stays, and what was gained before too.\n",
    },
    Row {
        words: ["serve", "club", "1.2.3.4:1"],
        status: 6,
        text: "",
        said: "session 3 cut",
        told: "bec: session 3: The other end went away before the session was over. It may\n\
\x20    have found a fault with this one, another schema for instance: look what\n\
\x20    it says. What was held stays, and what was gained before too.\n",
    },
    Row {
        words: ["apply", "club", ""],
        status: 7,
        text: "",
        said: "! key spent 1024",
        told: "bec: All 1024 signatures of the key are used. Make a new directory with a new\n\
\x20    key, and merge it with this one: docs/OPERATING.md says how.\n",
    },
    Row {
        words: [
            "apply",
            "a rather long name of a directory that fills a row by itself, for a test of that",
            "",
        ],
        status: 7,
        text: "",
        said: "! heads 1024",
        told: "bec: There are 1024 heads, and an update may come after 1024. Run `bec join\n\
\x20    a rather long name of a directory that fills a row by itself, for a test of that`,\n\
\x20    and then try again.\n",
    },
    Row {
        words: ["merge", "club or lake", "lake"],
        status: 8,
        text: "",
        said: "! bad store",
        told: "bec: The files of the store in club or lake are damaged, or one is missing.\n\
\x20    Make a new store and merge a backup or another member's store into it:\n\
\x20    docs/OPERATING.md. If `bec init` never printed an id for club or lake,\n\
\x20    nothing is lost: delete `schema` and `updates` there, and call `bec init`\n\
\x20    again.\n",
    },
];

/// Whether what is told is what the row says.
fn is_told(alloc: Global, row: &Row<'_>) -> Result<bool, AllocError> {
    let [command, directory, other] = row.words;
    let asked = Asked {
        command,
        directory,
        other,
        status: row.status,
        text: row.text.as_bytes(),
    };
    let told = explain(alloc, row.said.as_bytes(), &asked)?;
    Ok(told.as_slice() == row.told.as_bytes())
}

#[test]
fn each_is_told_as_the_table_says(rt: HostRuntime) -> Result<(), Fail> {
    for row in ROWS {
        assert!(rt; is_told(rt.alloc(), row)?, "{}", row.said);
    }
    Ok(())
}

//! What each refusal means and what to do.

ghost use Rattle.std.specs.Prelude.{◌≡◌};
ghost use Rattle.explanations.specs.Explained.{the_table};

/// The table, as bytes.
pub(crate) fn table() -> &'static [u8]
    ensures { result.now ≡ the_table }
{
    REFUSALS.as_bytes()
}

/// Refusals, each in a line of its own, and in the next line what it means and what to do.
///
/// A refusal stands there without its `! `, with `L` for a line, `C` for a column, `N` for a number, `K` for an
/// operation, `P` for a place and `D` for the digits of an id. In what it means `{L}`, `{C}`, `{N}` and `{K}` stand for
/// what the refusal has there, `{D}` and `{O}` for the directory of the command and for the other one, and `{H}` for
/// how to get help on it.
///
/// `status S` is a refusal that prints no line. What stands behind `COMMAND: ` is of that command alone. How a session
/// of `serve` ended is looked up by the words behind `session K`. What stands behind `habit ` is said beside a refusal
/// where the word that is refused is one that people write by habit. `bench/refusals` keeps the table complete.
pub const REFUSALS: &str = "\
schema line L: line\n\
The line has none of a schema's forms, or stands where it may not. Compare it with the forms in \
docs/SCHEMAS.md. If it is one past the end, a table lacks its SAMPLE line.\n\
schema line L: limit\n\
There is one too many of something, or a name, a text or a number is above its limit. Leave it out or \
make it shorter; docs/SCHEMAS.md has the limits. Line 0 means the whole text, which may have 65536 \
bytes. If `dump` says so, its input is no bundle.\n\
schema line L: name\n\
A name is taken, or is no name, or no column has it. Names are small letters, digits and _, and begin \
with a letter.\n\
schema line L: target\n\
The reference leads to a table that is not above it, or lacks NULL. Move the other table up. Add NULL if \
the reference is to its own table or is SETNULL. A RESTRICT reference may not lead to a table with KEEP \
LEAST, or to one that goes along with such a table by CASCADE, and a table with KEEP LEAST may not refer \
to itself by CASCADE.\n\
schema line L: type\n\
Two kinds do not go together, or bounds are turned round. Compare like with like, and write the lower \
bound first.\n\
schema line L: match\n\
A MATCH may not go along a RESTRICT reference. Make the reference CASCADE or SETNULL.\n\
schema line L: sample\n\
The values of SAMPLE do not fit their columns, or a CHECK or MATCH is false of them. Give a row that \
your own conditions allow.\n\
schema cut\n\
The input ends inside the schema that a bundle begins with. Export the bundle again.\n\
not confluent line L\n\
Two members who write at the same time can break this condition together, as the history shows. \
docs/CONFLUENCE.md says what to write instead.\n\
transaction L:C: unknown word\n\
A word is missing or may not stand here. A line is INSERT table value .. or DELETE rowname.\n\
transaction L:C: unknown table\n\
The schema has no such table. `bec dump {D}` shows the tables.\n\
transaction L:C: not a value\n\
This is no value. Values are NULL, TRUE, FALSE, integers, texts in double quotes, names of rows as `bec \
dump` prints them, and $1, $2 ..\n\
transaction L:C: text too long\n\
A text may have 1024 bytes. Make it shorter, or divide it among several columns.\n\
transaction L:C: later line\n\
$k names the row that an earlier operation of this transaction inserts, and here it is none. Put that \
operation first, and count operations from 1.\n\
transaction L:C: wrong number of values\n\
A row has one value for each column and reference of its table, in the schema's order.\n\
transaction L:C: too many operations\n\
A transaction may have 256 operations. Write the rest with a second one.\n\
transaction L:C: not utf-8\n\
A byte here is no text. Save the transaction as UTF-8.\n\
transaction L:C: too long\n\
A transaction may have 4194304 bytes. Divide it.\n\
script line L\n\
This line of the script has none of the forms of docs/WORLDS.md, names a member or a session that is not \
there, or has an operation that no transaction may have. One past the last line means that there is no \
line WORLD. Line 0 means the whole script, which may have 16777216 bytes.\n\
query L:C: unknown word\n\
A word is missing or may not stand here. The form is SELECT items FROM table [WHERE condition] [ORDER BY \
keys] [LIMIT n].\n\
query L:C: not a value\n\
This is no value. Values are integers, texts in double quotes, TRUE and FALSE. LIMIT takes a number.\n\
query L:C: unknown table\n\
The schema has no such table. `bec dump {D}` shows the tables.\n\
query L:C: unknown column\n\
The table has no such column or reference. A column of another table is asked for as reference.column.\n\
query L:C: types differ\n\
The two sides are not of one kind. Compare like with like. Of a reference itself only IS NULL can be \
asked.\n\
query L:C: not utf-8\n\
A byte here is no text. Type the query in UTF-8.\n\
query L:C: too long\n\
A query may have 4194304 bytes, and its condition 4096 words, which name 256 different columns at most. \
Ask for less at once.\n\
query not named\n\
Each line that is watched begins with the name of its row. Let the query begin with SELECT ROW or SELECT \
*, and leave out ORDER BY and LIMIT.\n\
invalid reason 1 operation K\n\
Operation {K}, counted from 0, inserts into a table that the schema has not. Nothing was written.\n\
invalid reason 2 operation K\n\
A value of operation {K}, counted from 0, does not fit its column. The COLUMN lines of the schema have \
the bounds. Nothing was written.\n\
invalid reason 3 operation K\n\
Operation {K}, counted from 0, breaks a CHECK line of its table. Nothing was written.\n\
invalid reason 4 operation K\n\
Operation {K}, counted from 0, refers to a row that is not there: it was never written, or is deleted. \
`bec dump {D}` shows the rows. Nothing was written.\n\
invalid reason 5 operation K\n\
Operation {K}, counted from 0, breaks a MATCH line of its table. Compare its values with those of the \
row that it refers to. Nothing was written.\n\
invalid reason 6 operation K\n\
Operation {K}, counted from 0, deletes a row that is not there or may not be deleted. The table may not \
be DELETABLE, or another row may hold this one by RESTRICT. Nothing was written.\n\
invalid reason 7 operation K\n\
Operation {K}, counted from 0, deletes a row that another author wrote. In an OWNED table only the \
author of a row deletes it. Nothing was written.\n\
invalid reason 9 operation K\n\
A new row has a value that another row of its table has, in a column with UNIQUE and KEEP LEAST. Give \
another value, or delete that row in the same transaction. Nothing was written.\n\
author not listed\n\
The schema lists its authors, and the key of {D} is none of them. Write with a key that is listed. A new \
list makes a new database.\n\
update too long\n\
The update would have more than 262144 bytes. Divide the transaction.\n\
id taken\n\
The new update has the digest of another one. Nothing was written. Write it again: the next signature \
gives another digest.\n\
update N: version at P\n\
Record {N} is no update of a version that this program knows. A newer program may have made it. Or the \
input is of another kind: `heads` reads a stream, `dump` a bundle.\n\
update N: short at P\n\
The input ends inside record {N}. It was cut on its way. Export it again.\n\
update N: trailing at P\n\
Record {N} has bytes behind its signature. It is damaged. Get it from somebody else.\n\
update N: order at P\n\
The predecessors of record {N} do not rise. It is damaged. Get it from somebody else.\n\
update N: count at P\n\
Record {N} counts more than an update may have. It is damaged. Get it from somebody else.\n\
update N: tag at P\n\
A byte of record {N} begins no operation and no value. It is damaged. Get it from somebody else.\n\
update N: text at P\n\
A text of record {N} is too long or no UTF-8. It is damaged. Get it from somebody else.\n\
update N: key type at P\n\
The author's key of record {N} is of an unknown type. It is damaged or from another program.\n\
update N: signature length at P\n\
The signature of record {N} has another length than its key's. It is damaged. Get it from somebody else.\n\
update N: too long at P\n\
Record {N} says that it has more than 262144 bytes. The input may be of another kind: `heads` reads a \
stream, `dump` a bundle.\n\
update N: own index at P\n\
A reference of record {N} names its own or a later operation. It is damaged. Get it from somebody else.\n\
update N: other database\n\
Record {N} is of another database than the schema or the first record. Keep the databases apart.\n\
update N: author not listed\n\
The schema lists its authors, and the author of record {N} is none of them. Whoever gave you the input \
added it.\n\
update N: bad signature\n\
The author of record {N} did not sign it like this. It was changed on its way. Get it from somebody \
else.\n\
update N: lacks D\n\
Record {N} comes after an update that the input lacks. Each update has to stand behind those that it \
comes after. Export it again.\n\
not doubled\n\
The input is not two updates that one key signed under one index with different contents, each whole and \
nothing behind them. `bec audit DIR` lists those of a store.\n\
bad seal\n\
This is no seal of what was read by this key. What was read may have been changed, the seal cut, or the \
key be another one. Get all three again from whoever made the seal.\n\
input too long\n\
What is sealed may have 16777216 bytes. Divide it, and seal each part.\n\
words\n\
These words are no command. {H}.\n\
store fault\n\
A file of the directory could not be read or written, or another program is using it. The line above \
says which. Wait for the other program, or look whether the disk is full and the files are yours. What \
was acknowledged is kept.\n\
stream fault\n\
Standard input could not be read, or standard output could not be written. Look whether the disk is full \
or a program of the pipe ended early. If the command writes, what it wrote is kept: look with `bec \
heads` before you write it again.\n\
sync: stream fault\n\
Nobody answered at {O}, or the connection failed, or the other one was too slow. Look whether the other \
one serves there, and try again. What was held stays, and what came before too.\n\
serve: stream fault\n\
Nobody can call at {O}. The line above says why: the address may not be this machine's, or another \
program may use the port. What came before is kept.\n\
status 4\n\
Standard input could not be read, or standard output could not be written. Look whether the disk is full \
or a program of the pipe ended early. If the command writes, what it wrote is kept: look with `bec \
heads` before you write it again.\n\
status 5\n\
Memory ran out. Nothing has changed, but for what a session brought over or `watch` took before. Close \
other programs, and try again.\n\
peer wrong database\n\
The two stores are of different schemas, so they cannot be merged. One byte is enough to make another \
schema. Make both stores of the same file.\n\
peer bad frame\n\
The other end sent bytes that are no frame: it is damaged, or is no bec. What was held stays, and what \
was gained before too.\n\
peer bad update\n\
The other end sent an update that is not spelled, not signed by its author, or not of this database. It \
was not taken. What was held stays, and what was gained before too. Get the update from somebody else.\n\
peer unanswered\n\
The other end did not send what it was asked for. What was held stays, and what was gained before too. \
Try again, or meet somebody else.\n\
peer asked unknown\n\
The other end asked for an update that this one never had. What was held stays, and what was gained \
before too. Try again, or meet somebody else.\n\
peer asked again\n\
The other end asked twice for one update. What was held stays, and what was gained before too. Try \
again, or meet somebody else.\n\
peer stalled\n\
The other end's turn brought nothing forward. What was held stays, and what was gained before too. Try \
again, or meet somebody else.\n\
peer taken back\n\
The other end took back that it has everything. What was held stays, and what was gained before too. Try \
again, or meet somebody else.\n\
peer out of turn\n\
The other end spoke when it was not its turn. What was held stays, and what was gained before too. Try \
again, or meet somebody else.\n\
peer version\n\
The other end speaks another version: its program is older or newer. Nothing was exchanged. Use the same \
version of bec for both.\n\
cut\n\
The other end went away before the session was over. It may have found a fault with this one, another \
schema for instance: look what it says. What was held stays, and what was gained before too.\n\
broken\n\
The connection failed, or the other one was too slow. What was held stays, and what was gained before \
too. Let the other end try again.\n\
store\n\
A file of {D} could not be read or written. The line above says which. Look whether the disk is full. \
What was acknowledged is kept.\n\
full\n\
One update more would pass 131072 updates or 268435456 bytes. Begin a new database with the rows that \
you still need.\n\
key spent N\n\
All {N} signatures of the key are used. Make a new directory with a new key, and merge it with this one: \
docs/OPERATING.md says how.\n\
heads N\n\
There are {N} heads, and an update may come after 1024. Run `bec join {D}`, and then try again.\n\
no store\n\
There is no store in {D}. Look whether the name is right. `bec init` makes a store.\n\
no key\n\
{D} has no key, so nothing can be signed there. `bec keygen {D}` draws one.\n\
store there\n\
{D} has a store already, and it was left as it is. Take another name for a new one. `bec heads {D}` \
tells whether it opens.\n\
key there\n\
{D} has a key already, and it was left as it is. Make another directory for a second key.\n\
bad store\n\
The files of the store in {D} are damaged, or one is missing. Make a new store and merge a backup or \
another member's store into it: docs/OPERATING.md. If `bec init` never printed an id for {D}, nothing is \
lost: delete `schema` and `updates` there, and call `bec init` again.\n\
bad key\n\
The files of the key in {D} are damaged, or one is missing. Do not put back an old copy of a key. Make a \
new directory with a new key: docs/OPERATING.md. If `bec keygen` never printed a key for {D}, delete \
`key` and `used` there, and call it again.\n\
habit semicolon\n\
A line ends by itself here; leave the semicolon out.\n\
habit single quote\n\
A text stands in double quotes. In a shell the whole query stands in single ones: 'SELECT name FROM item \
WHERE name = \"Kayak\"'.\n\
habit small letters\n\
Keywords are written in capital letters, names in small ones.\n\
habit aggregate\n\
Rows are not counted or summed here. Ask for the rows, and count the lines: `bec query DIR TEXT | wc \
-l`.\n\
habit like\n\
Texts are compared as a whole, by = != < <= > >=. For a part of a text give the answer to grep.\n\
habit join\n\
A row that a row refers to is asked for by the reference: SELECT item.name FROM loan.\n\
habit as\n\
Columns keep their names.\n\
habit update\n\
No row is changed. Delete it and insert it anew, or keep what changes in a table of its own: \
docs/SCHEMAS.md.\n\
habit into\n\
A line is INSERT table value .., with blanks between the values, and without INTO, VALUES, parentheses \
and commas.\n\
habit in\n\
There is no IN. Compare with each value, and put OR between the comparisons.\n\
habit between\n\
There is no BETWEEN. Write two comparisons with AND between them: shelves >= 3 AND shelves <= 9.\n\
habit null\n\
`column IS NULL` asks whether a value is null, and `NOT column IS NULL` whether it is one. NOT stands \
before the condition.\n\
habit equal\n\
Equal is written =, and unequal !=.\n\
habit offset\n\
There is no OFFSET. Ask for more rows, and leave out the first ones: `bec query DIR TEXT | tail -n \
+11`.\n\
habit byte order mark\n\
The text begins with a byte order mark. Save it as UTF-8 without one.\n";

//! What `--help` and `--version` print.

/// Each command with its words, the formats, an example, and the statuses.
pub const HELP: &str = "\
morsel: a streaming query engine whose answers are proved

usage:
  morsel local QUERY OUT        writes the rows of the query in the file QUERY as NDJSON into OUT, and prints their number
  morsel scan FILE SCHEMA OUT   the same of all rows and columns of the CSV file FILE
  morsel --help                 prints this
  morsel --version              prints the version and the toolchain's logic

QUERY is a JSON object. \"left\" says which files are read, which columns they have, and what becomes of their rows:
  format, files, schema    \"csv\"; their names; a list of [NAME, TYPE], one for each column in its order
  csv                      separator, quote, eol, comment, has_header, null, ignore_errors
  slice                    [OFFSET, LENGTH]: which rows of all files
  row_index, path          [NAME, OFFSET]: a first column of numbers; NAME: a last column of files' names
  filter, columns          [\"gt\", COLUMN, {\"lit\": VALUE}] and the like; the columns that are kept
\"join\", where there is one, says with which other rows they are joined:
  right, on                a second scan, as \"left\" is one; a list of [LEFT COLUMN, RIGHT COLUMN] that are to be equal
  kind, order              \"inner\", \"left\", \"right\" or \"full\"; \"none\", \"left\", \"right\", \"left_right\" or \"right_left\"
  nulls, coalesce, suffix  whether nulls are equal; whether a pair's columns become one; what tells equal names apart
\"group\", where there is one, gives one row for each distinct key of these rows:
  keys, aggs               the columns of the key; a list of [OP, COLUMN, NAME], where OP is \"sum\", \"min\", \"max\",
                           \"first\" or \"last\", or [\"len\", null, NAME], which counts the rows
\"sink\" is {\"format\": \"ndjson\"}, and \"options\" may set numbers such as chunk_bytes. docs/FORMATS.md has all keys.
SCHEMA is NAME:TYPE joined by commas. TYPE is int, bool or text.

formats:
  CSV      UTF-8; fields between commas, records on lines; a field in double quotes may hold commas, line feeds and
           doubled quotes; the first record is a header, and is skipped; an empty field without quotes is null
  NDJSON   one object a line, as {\"id\":1,\"name\":null}

example:
  morsel scan a.csv id:int,name:text a.ndjson
  morsel local q.json q.ndjson, where q.json has
    {\"left\": {\"format\": \"csv\", \"files\": [\"a.csv\"], \"schema\": [[\"id\", \"int\"], [\"name\", \"text\"]],
              \"filter\": [\"gt\", \"id\", {\"lit\": 1}]}, \"sink\": {\"format\": \"ndjson\"}}

status, and what is printed:
   0   the number of rows                       OUT has them all
  11   error 1: out of memory                   there was not enough memory
  12   error 2: read fault in file F            the file could not be opened or read
  13   error 3: write fault                     OUT could not be made or written, or a line not printed
  14   error 4: invalid query: W                the query has the flaw W, as an option out of range, or OUT is a file that is read
  15   error 5: malformed file F at A           the record that begins at byte A is not CSV, or has more or fewer fields
  16   error 6: unsupported code C in file F    the file is compressed by gzip (31) or zstd (40)
  17   error 7: column not found: X             a name of the query is no column
  18   error 8: schema mismatch: X              a filter or a join compares column X with another type, or X has no sum
  19   error 9: duplicate column: X             two columns have one name
  20   error 10: not utf8, file F, at A         the record at byte A is not UTF-8
       error 10: ill typed, file F, at A        a field of the record at byte A does not fit its column
       error 10: negative slice, too many rows, or index too large
       error 10: sum too large, len too large, or too many groups, where rows are grouped
  21   error 11: query text                     QUERY is no query
  22   error 12: usage                          the words are not a command, or SCHEMA is not a schema
Files are counted from 0 as the query names them; 4294967295 is QUERY. For 12 and 13, standard error tells the file and
the reason. With any status but 0, what OUT contains is no answer.
";

/// The name, the version, and the logic of the toolchain that proved it.
pub const VERSION: &str = "morsel 0.1.0, rattle logic dac8208d650f15bf\n";

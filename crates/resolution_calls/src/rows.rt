//! Statements, and behind ` => ` what is made of the query, the condition or the body that each defines, with the schema ALICE
//! and a table T that has one column X INTEGER. The right sides follow the rules of the language and were written by hand.

/// Of a query: its text, its columns with their types, what it needs by SELECT, and what it needs by REFERENCES.
pub const QUERIES: &str =
    "CREATE VIEW V AS SELECT X FROM T => SELECT T.X AS X FROM ALICE.T AS T | X INTEGER | SELECT ON COLUMN ALICE.T.X | REFERENCES ON COLUMN ALICE.T.X
CREATE VIEW V AS SELECT COUNT(*) AS N, 'A' AS Y FROM T => SELECT COUNT(*) AS N, 'A' AS Y FROM ALICE.T AS T | N BIGINT | Y CHARACTER(1) | SELECT ON TABLE ALICE.T | REFERENCES ON TABLE ALICE.T
CREATE VIEW V AS SELECT Z FROM T => unknown Z
CREATE VIEW V AS SELECT X FROM S.T => unknown S.T
CREATE VIEW V AS SELECT X FROM T A, T B => ambiguous X
CREATE VIEW V AS SELECT X + 'A' AS Z FROM T => no type";

/// Of a condition on the table T: its text, its type and what it needs by SELECT; the same of a constraint's condition; and
/// what that needs. Of a domain's condition: its text with the column X of T in the place of VALUE.
pub const CONDITIONS: &str =
    "CREATE ASSERTION A CHECK (X > 0) => ALICE.T.X > 0 | BOOLEAN | SELECT ON COLUMN ALICE.T.X | ALICE.T.X > 0 | BOOLEAN | REFERENCES ON COLUMN ALICE.T.X | REFERENCES ON COLUMN ALICE.T.X
CREATE ASSERTION A CHECK (X + 1) => ALICE.T.X + 1 | INTEGER | SELECT ON COLUMN ALICE.T.X | no type
CREATE ASSERTION A CHECK (T.Z > 0) => unknown T.Z | unknown T.Z
CREATE DOMAIN D INTEGER CHECK (VALUE > 0) => ALICE.T.X > 0
CREATE DOMAIN D INTEGER CHECK (VALUE IN (SELECT X FROM T WHERE X < VALUE)) => ALICE.T.X IN (SELECT X FROM T WHERE X < ALICE.T.X)";

/// Of the body of a procedure P of ALICE: its text, what it needs, and once more what it needs.
pub const BODIES: &str =
    "CREATE PROCEDURE P () BEGIN ATOMIC DELETE FROM T; END => BEGIN ATOMIC DELETE FROM ALICE.T; END | DELETE ON TABLE ALICE.T | DELETE ON TABLE ALICE.T
CREATE PROCEDURE P () BEGIN ATOMIC DELETE FROM T WHERE X = 1; CALL P(); END => BEGIN ATOMIC DELETE FROM ALICE.T WHERE ALICE.T.X = 1; CALL ALICE.P(); END | SELECT ON COLUMN ALICE.T.X | DELETE ON TABLE ALICE.T | SELECT ON COLUMN ALICE.T.X | DELETE ON TABLE ALICE.T
CREATE PROCEDURE P () BEGIN ATOMIC DELETE FROM U; END => unknown ALICE.U";
